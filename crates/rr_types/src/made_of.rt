//! What the check has to be told about a function's types.

/// Names the types that the values of a function are made of. The check learns them from the types of a function's
/// variables, and else doesn't find that such a value can be copied. It does nothing when it runs.
#[macro_export]
macro_rules! made_of {
    ($($part:ty),+) => {
        let _parts: Option<($($part,)+)> = None;
    };
}
