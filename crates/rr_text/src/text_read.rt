//! Reading the words of a schedule.

ghost use Rattle.std.specs.Prelude.{true, [], ◌∷◌, unwrap_or, IfSome, ◌≡◌, ◌+◌, ◌-◌, ◌*◌, ◌<◌, ◌≤◌, ◌^◌, ◌==◌, SomeIff, nat_lt, if◌then◌else◌, IsTrue, None, Some, MatchOption, IfOk};
ghost use Rattle.std.specs.List.{list_all, position};
ghost use Rattle.std.specs.Str.Parse.{digits_value};
ghost use Rattle.rr_types.specs.Commands.{find_by, op_shape, op_of};
ghost use Rattle.rr_text.specs.Numbers.{is_digit, is_number};
ghost use Rattle.rr_text.specs.Reading.{keyword_text, cut_at, number_at, small_at, node_at, name_at, filled_value_at, members_at, set_at, hex_value, hex_byte, pairs_at, fill_at, submitted_at, first_node_at, cuts_at, fields_at, event_at, shaped_at, target_at, keyword_at, message_kind_at, op_at};

use crate::kind::EventKind;
use memchr::memchr;
use rr_types::{
    Command, MessageKind, Name, NodeId, NodeSet, Nodes, Op, OpKind, Operand, Refusal, RequestNo,
    Shape, Value,
};

fn place_of(text: &[u8], at: u8) -> Option<usize>
    ensures { result ≡ position (λ b. b == at) text.now }
{
    text.iter().position(|byte| *byte == at)
}

/// What stands before the first such byte, and behind it.
pub fn cut(text: &[u8], at: u8) -> Option<(&[u8], &[u8])>
    ensures { MatchOption result (cut_at at text.now ≡ None) (λ x. cut_at at text.now ≡ Some (x.0.now, x.1.now)) }
{
    match place_of(text, at) {
        Some(i) => Some((&text[..i], &text[i + 1..])),
        None => None,
    }
}

/// Where the first line feed stands.
#[tactic(auto, using(crate::proofs::LineSearch::first_is_position))]
fn line_feed(text: &[u8]) -> Option<usize>
    ensures { result ≡ position (λ b. b == 10) text.now }
{
    memchr(b'\n', text)
}

/// What stands before the first line feed, and behind it. Lines are long enough for a search of many bytes at a time.
pub fn cut_line(text: &[u8]) -> Option<(&[u8], &[u8])>
    ensures { MatchOption result (cut_at 10 text.now ≡ None) (λ x. cut_at 10 text.now ≡ Some (x.0.now, x.1.now)) }
{
    match line_feed(text) {
        Some(end) => Some((&text[..end], &text[end + 1..])),
        None => None,
    }
}

/// Whether a word is a number in decimal, of any length, without a leading zero.
pub fn is_number(word: &[u8]) -> bool
    ensures { result ≡ is_number word.now }
{
    match word {
        [] => false,
        [_] => has_only_digits(word),
        [first, _, ..] => *first != b'0' && has_only_digits(word),
    }
}

fn has_only_digits(word: &[u8]) -> bool
    ensures { result ≡ list_all is_digit word.now }
{
    word.iter().all(|byte| matches!(byte, b'0'..=b'9'))
}

// The number with one more digit; none where the byte is no digit or the number is too large.
fn with_digit(value: u64, digit: u8) -> Option<u64>
    ensures { SomeIff result ((is_digit digit ≡ true) × (value * 10 + (digit - 48) < 2 ^ 64)) (value * 10 + (digit - 48)) }
{
    if !matches!(digit, b'0'..=b'9') {
        return None;
    }
    match value.checked_mul(10) {
        Some(tens) => tens.checked_add(u64::from(digit - b'0')),
        None => None,
    }
}

// The number that a word of digits alone is, in one pass.
#[tactic(auto, using(crate::proofs::NumberLemmas::digits_on, crate::proofs::NumberLemmas::digits_tested))]
fn digits_value(word: &[u8]) -> Option<u64>
    ensures { result ≡ (if list_all is_digit word.now then (if nat_lt (digits_value 10 word.now) (2 ^ 64) then Some (digits_value 10 word.now) else None) else None) }
{
    let mut value = 0u64;
    for digit in word {
        match with_digit(value, *digit) {
            Some(more) => value = more,
            None => return None,
        }
    }
    Some(value)
}

/// The number below 2 to the 64 that a word is.
pub fn number(word: &[u8]) -> Option<u64>
    ensures { result ≡ number_at word.now }
{
    match word {
        [] => None,
        [digit] => match digit {
            b'0'..=b'9' => Some(u64::from(*digit - b'0')),
            _ => None,
        },
        [first, _, ..] => {
            if *first == b'0' {
                None
            } else {
                digits_value(word)
            }
        }
    }
}

/// The number below 2 to the 32 that a word is.
pub fn small_number(word: &[u8]) -> Option<u32>
    ensures { result ≡ small_at word.now }
{
    let value = number(word)?;
    u32::try_from(value).ok()
}

/// The node that a word is.
pub fn node(nodes: Nodes, word: &[u8]) -> Option<NodeId>
    ensures { result ≡ node_at nodes word.now }
{
    match word {
        [digit] if *digit >= b'0' => NodeId::new(nodes, *digit - b'0'),
        _ => None,
    }
}

/// The name that a word is.
pub fn name(word: &[u8]) -> Option<Name>
    ensures { result ≡ name_at word.now }
{
    Name::new(word).ok()
}

fn filled_value(word: &[u8]) -> Option<Value>
    ensures { result ≡ filled_value_at word.now }
{
    match word {
        [] => None,
        [_, ..] => Value::new(word).ok(),
    }
}

fn members(first: u8, word: &[u8]) -> Option<u8>
    requires { first ≤ 7 }
    ensures value { result ≡ members_at first (7 - first) word.now }
    ensures range { IfSome result (λ s. s < 2 ^ (7 - first)) }
{
    if first == 7 {
        return match word {
            [] => Some(0),
            [_, ..] => None,
        };
    }
    match word {
        [digit, rest @ ..] if *digit == b'0' + first => match members(first + 1, rest) {
            Some(set) => Some(2 * set + 1),
            None => None,
        },
        _ => match members(first + 1, word) {
            Some(set) => Some(2 * set),
            None => None,
        },
    }
}

/// The set of nodes that a word is.
pub fn set(nodes: Nodes, word: &[u8]) -> Option<NodeSet>
    ensures { result ≡ set_at nodes word.now }
{
    if word == b"-".as_slice() {
        return Some(NodeSet::empty());
    }
    match members(0, word) {
        Some(bits) if bits > 0 => NodeSet::from_bits(nodes, bits),
        _ => None,
    }
}

fn hex_value(digit: u8) -> Option<u8>
    ensures value { result ≡ hex_value digit }
    ensures range { IfSome result (λ v. v < 16) }
{
    match digit {
        b'0'..=b'9' => Some(digit - b'0'),
        b'A'..=b'F' => Some(digit - b'A' + 10),
        _ => None,
    }
}

/// The byte that two upper-case hex digits are.
pub fn hex_byte(high: u8, low: u8) -> Option<u8>
    ensures { result ≡ hex_byte high low }
{
    match (hex_value(high), hex_value(low)) {
        (Some(high), Some(low)) => Some(16 * high + low),
        _ => None,
    }
}

/// The kind of messages that a word stands for.
pub fn message_kind(word: &[u8]) -> Option<MessageKind>
    ensures { result ≡ message_kind_at word.now }
{
    let kind = match word {
        [b'e', ..] => MessageKind::Estimate,
        [b'p', ..] => MessageKind::Proposal,
        [b'a', b'c', ..] => MessageKind::Ack,
        [b'd', ..] => MessageKind::Decision,
        [b'r', ..] => MessageKind::Request,
        [b'n', ..] => MessageKind::Nack,
        [b'b', ..] => MessageKind::Beat,
        [b's', ..] => MessageKind::Suspects,
        [b'a', ..] => MessageKind::Ask,
        _ => return None,
    };
    if word == kind.word().as_bytes() {
        Some(kind)
    } else {
        None
    }
}

fn empty_value() -> Option<Value>
    ensures { result ≡ Some [] }
{
    Value::new(&[]).ok()
}

// An operation with a value. Names and values are large, and each value that may be none costs a copy of them. So there is no
// pair of them that may be none, and the operation is made where both are there.
fn valued_op(kind: OpKind, name: Name, value: Value) -> Op
    requires { op_shape kind ≡ Shape.Valued }
    ensures { result ≡ op_of kind name (Operand.Value value) }
{
    Op::of(kind, &name, &Operand::Value(value))
}

// The operation with a value that a text is which is a name alone.
fn valued_alone(kind: OpKind, text: &[u8]) -> Option<Op>
    requires alone { cut_at 32 text.now ≡ None }
    requires shaped { op_shape kind ≡ Shape.Valued }
    ensures { result ≡ shaped_at kind Shape.Valued text.now }
{
    let Some(name) = name(text) else {
        return None;
    };
    let Some(value) = empty_value() else {
        return None;
    };
    Some(valued_op(kind, name, value))
}

// The operation with a value that a text is.
fn valued(kind: OpKind, text: &[u8]) -> Option<Op>
    requires { op_shape kind ≡ Shape.Valued }
    ensures { result ≡ shaped_at kind Shape.Valued text.now }
{
    let Some((word, rest)) = cut(text, b' ') else {
        return valued_alone(kind, text);
    };
    let Some(name) = name(word) else {
        return None;
    };
    let Some(value) = filled_value(rest) else {
        return None;
    };
    Some(valued_op(kind, name, value))
}

// The operation on a name alone that a text is.
fn bare(kind: OpKind, text: &[u8]) -> Option<Op>
    requires { op_shape kind ≡ Shape.Bare }
    ensures { result ≡ shaped_at kind Shape.Bare text.now }
{
    let Some(name) = name(text) else {
        return None;
    };
    Some(Op::of(kind, &name, &Operand::Nothing))
}

// The operation with an owner that a text is.
fn owned(kind: OpKind, text: &[u8]) -> Option<Op>
    requires { op_shape kind ≡ Shape.Owned }
    ensures { result ≡ shaped_at kind Shape.Owned text.now }
{
    let Some((word, rest)) = cut(text, b' ') else {
        return None;
    };
    let Some(name) = name(word) else {
        return None;
    };
    let Some(owner) = small_number(rest) else {
        return None;
    };
    Some(Op::of(kind, &name, &Operand::Owner(owner)))
}

// The operation of this kind that a text is.
fn target(kind: OpKind, text: &[u8]) -> Option<Op>
    ensures { result ≡ target_at kind text.now }
{
    match kind.shape() {
        Shape::Bare => bare(kind, text),
        Shape::Valued => valued(kind, text),
        Shape::Owned => owned(kind, text),
    }
}

/// The operation that a text is.
pub fn op(text: &[u8]) -> Option<Op>
    ensures { result ≡ op_at text.now }
{
    let Some((word, rest)) = cut(text, b' ') else {
        return None;
    };
    match OpKind::of_word(word) {
        Some(kind) => target(kind, rest),
        None => None,
    }
}

/// The command that the words of a submit behind the node are.
pub fn submitted(text: &[u8]) -> Option<Command>
    ensures { result ≡ submitted_at text.now }
{
    let (word, rest) = cut(text, b' ')?;
    let client = small_number(word)?;
    let (word, rest) = cut(rest, b' ')?;
    let seq = number(word)?;
    let op = op(rest)?;
    Some(Command {
        request: RequestNo { client, seq },
        op,
    })
}

// The event that one of the four longest words means.
fn long_keyword(word: &[u8]) -> Option<EventKind>
    ensures { result ≡ find_by keyword_text word.now (EventKind.Submit ∷ EventKind.Suspect ∷ EventKind.Advance ∷ EventKind.Restart ∷ []) }
{
    if word == b"submit".as_slice() {
        Some(EventKind::Submit)
    } else if word == b"suspect".as_slice() {
        Some(EventKind::Suspect)
    } else if word == b"advance".as_slice() {
        Some(EventKind::Advance)
    } else if word == b"restart".as_slice() {
        Some(EventKind::Restart)
    } else {
        None
    }
}

// The event that one of the other words means. Patterns look at the first byte, and not at one word after another.
fn short_keyword(word: &[u8]) -> Option<EventKind>
    ensures { result ≡ find_by keyword_text word.now (EventKind.Hear ∷ EventKind.Tick ∷ EventKind.Take ∷ EventKind.Device ∷ EventKind.Fail ∷ EventKind.Mark ∷ EventKind.Send ∷ EventKind.Ack ∷ EventKind.Snap ∷ EventKind.Crash ∷ []) }
{
    match word {
        [b'h', b'e', b'a', b'r'] => Some(EventKind::Hear),
        [b't', b'i', b'c', b'k'] => Some(EventKind::Tick),
        [b't', b'a', b'k', b'e'] => Some(EventKind::Take),
        [b'd', b'e', b'v'] => Some(EventKind::Device),
        [b'f', b'a', b'i', b'l'] => Some(EventKind::Fail),
        [b'm', b'a', b'r', b'k'] => Some(EventKind::Mark),
        [b's', b'e', b'n', b'd'] => Some(EventKind::Send),
        [b'a', b'c', b'k'] => Some(EventKind::Ack),
        [b's', b'n', b'a', b'p'] => Some(EventKind::Snap),
        [b'c', b'r', b'a', b's', b'h'] => Some(EventKind::Crash),
        _ => None,
    }
}

/// The event that a word means.
#[tactic(auto, using(crate::proofs::Keywords::long_words, crate::proofs::Keywords::short_words))]
pub fn keyword(word: &[u8]) -> Option<EventKind>
    ensures { result ≡ keyword_at word.now }
{
    if word.len() > 5 {
        long_keyword(word)
    } else {
        short_keyword(word)
    }
}
