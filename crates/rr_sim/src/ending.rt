//! The ways in which a crash ends a device call.

ghost use Rattle.std.specs.Prelude.{◌≡◌, option_to_list};
ghost use Rattle.rr_sim.specs.Endings.{number_of, cut_of, fill_of};

/// How a crash ends a device call: where it cuts both areas, and the byte that loose places take.
#[derive(Clone, Copy, Debug, PartialEq, Eq)]
pub enum Ending {
    /// Nothing is cut, and loose places become open gates: `4294967295 4294967295 A5`.
    Open,
    /// Nothing is cut, and loose places become closed gates: `4294967295 4294967295 00`.
    Closed,
    /// All that isn't safe is cut off, and loose places keep their bytes: `0 0 -`.
    Cut,
    /// Nothing is lost: `4294967295 4294967295 -`.
    Kept,
    /// Both cuts and the fill are those of a drawn word w: `(w / 256) mod 1024` and `w mod 256`.
    Drawn,
}

impl Ending {
    /// Its number in a line of a sweep, from 1.
    pub fn number(self) -> u8
        ensures { result ≡ number_of self }
    {
        match self {
            Ending::Open => 1,
            Ending::Closed => 2,
            Ending::Cut => 3,
            Ending::Kept => 4,
            Ending::Drawn => 5,
        }
    }

    /// Where both areas are cut, by this word.
    pub fn cut(self, word: u32) -> u32
        ensures { result ≡ cut_of self word }
    {
        match self {
            Ending::Open | Ending::Closed | Ending::Kept => u32::MAX,
            Ending::Cut => 0,
            Ending::Drawn => word / 256 % 1024,
        }
    }

    /// The byte that loose places take, by this word; without one they keep theirs.
    pub fn fill(self, word: u32) -> Option<u8>
        ensures { option_to_list result ≡ fill_of self word }
    {
        match self {
            Ending::Open => Some(0xA5),
            Ending::Closed => Some(0),
            Ending::Cut | Ending::Kept => None,
            Ending::Drawn => Some((word % 256) as u8),
        }
    }
}
