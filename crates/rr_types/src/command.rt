//! Commands of the registry, and its replies.

ghost use Rattle.std.specs.Prelude.{◌≡◌, ◌≤◌, length, map, Some};
ghost use Rattle.rr_types.specs.declared.command.Shape.TheVariants as shapes;
ghost use Rattle.rr_types.specs.Registry.{is_same_request};
ghost use Rattle.rr_types.specs.Commands.{find_by, listed, either, op_form, op_word, op_byte, op_shape, op_kinds, op_kind_of, op_kind, op_name, op_operand, operand_shape, value_in, owner_in, op_of, is_same_op, is_same_command, reply_word, reply_kinds, reply_kind, reply_owner, reply_with};

use crate::name::{Name, Value};

/// A request: its client, and the client's own number for it. A registry applies each request once.
#[derive(Clone, Copy, Debug, PartialEq, Eq, PartialOrd, Ord)]
pub struct RequestNo {
    pub client: u32,
    pub seq: u64,
}

impl RequestNo {
    /// Whether two request numbers are one.
    pub fn is_same(self, other: RequestNo) -> bool
        ensures { result ≡ is_same_request self other }
    {
        self.client == other.client && self.seq == other.seq
    }
}

/// What an operation does with a name, whichever name it is.
#[derive(Clone, Copy, Debug)]
pub enum OpKind {
    Claim,
    Update,
    Release,
    Transfer,
}

impl OpKind {
    /// Its word in texts.
    #[inline]
    pub fn word(self) -> &'static str
        ensures { result.now ≡ op_word self }
    {
        match self {
            OpKind::Claim => "claim",
            OpKind::Update => "update",
            OpKind::Release => "release",
            OpKind::Transfer => "transfer",
        }
    }

    /// The kind of a word. It is told by the first byte, and then compared with one word alone.
    pub fn of_word(word: &[u8]) -> Option<OpKind>
        ensures { result ≡ find_by op_word word.now op_kinds }
    {
        let kind = match word {
            [b'c', ..] => OpKind::Claim,
            [b'u', ..] => OpKind::Update,
            [b'r', ..] => OpKind::Release,
            [b't', ..] => OpKind::Transfer,
            _ => return None,
        };
        if word == kind.word().as_bytes() {
            Some(kind)
        } else {
            None
        }
    }

    /// The words of all kinds, as a list for people.
    pub fn words() -> &'static str
        ensures { result.now ≡ listed (map op_word op_kinds) }
    {
        "claim, update, release, transfer"
    }

    /// The words of all kinds, of which one is expected.
    pub fn choice() -> &'static str
        ensures { result.now ≡ either (map op_word op_kinds) }
    {
        "claim, update, release or transfer"
    }

    /// How operations of all kinds are written, as a list for people.
    pub fn forms() -> &'static str
        ensures { result.now ≡ listed (map op_form op_kinds) }
    {
        "claim NAME [VALUE], update NAME [VALUE], release NAME, transfer NAME OWNER"
    }

    /// Its byte on a disk and in messages, from 1 on.
    #[inline]
    pub fn byte(self) -> u8
        ensures { result ≡ op_byte self }
    {
        match self {
            OpKind::Claim => 1,
            OpKind::Update => 2,
            OpKind::Release => 3,
            OpKind::Transfer => 4,
        }
    }

    /// The kind of a byte.
    #[inline]
    #[tactic(auto, using(crate::proofs::PartLemmas::byte_again))]
    pub fn of_byte(byte: u8) -> OpKind
        requires first { 1 ≤ byte }
        requires last { byte ≤ length op_kinds }
        ensures kind { result ≡ op_kind_of byte }
        ensures back { op_byte result ≡ byte }
    {
        match byte {
            1 => OpKind::Claim,
            2 => OpKind::Update,
            3 => OpKind::Release,
            _ => OpKind::Transfer,
        }
    }

    /// What such an operation has beside its name.
    #[inline]
    pub fn shape(self) -> Shape
        ensures { result ≡ op_shape self }
    {
        match self {
            OpKind::Claim | OpKind::Update => Shape::Valued,
            OpKind::Release => Shape::Bare,
            OpKind::Transfer => Shape::Owned,
        }
    }
}

/// What operations of a kind have beside their names.
#[derive(Clone, Copy, Debug)]
pub enum Shape {
    /// Nothing.
    Bare,
    /// A value.
    Valued,
    /// An owner.
    Owned,
}

/// What an operation has beside its name.
#[derive(Clone, Copy, Debug)]
pub enum Operand {
    Nothing,
    Value(Value),
    Owner(u32),
}

impl Operand {
    #[inline]
    fn value(&self) -> &Value
        requires { operand_shape self.now ≡ shapes.Valued }
        ensures { result.now ≡ value_in self.now }
    {
        match self {
            Operand::Value(value) => value,
            _ => unreachable!(),
        }
    }

    #[inline]
    fn owner(&self) -> u32
        requires { operand_shape self.now ≡ shapes.Owned }
        ensures { result ≡ owner_in self.now }
    {
        match self {
            Operand::Owner(owner) => *owner,
            _ => unreachable!(),
        }
    }
}

/// What a command does with a name.
#[derive(Clone, Copy, Debug)]
pub enum Op {
    /// Binds a free name to the client, with a value.
    Claim(Name, Value),
    /// Sets the value of a name that the client has.
    Update(Name, Value),
    /// Frees a name that the client has.
    Release(Name),
    /// Gives a name that the client has to another owner.
    Transfer(Name, u32),
}

impl Op {
    /// What it does with its name.
    #[inline]
    pub fn kind(&self) -> OpKind
        ensures { result ≡ op_kind self.now }
    {
        match self {
            Op::Claim(_, _) => OpKind::Claim,
            Op::Update(_, _) => OpKind::Update,
            Op::Release(_) => OpKind::Release,
            Op::Transfer(_, _) => OpKind::Transfer,
        }
    }

    /// The name that it is about.
    #[inline]
    pub fn name(&self) -> &Name
        ensures { result.now ≡ op_name self.now }
    {
        match self {
            Op::Claim(name, _) | Op::Update(name, _) | Op::Release(name) | Op::Transfer(name, _) =>
                name,
        }
    }

    /// What it has beside its name.
    #[inline]
    pub fn operand(&self) -> Operand
        ensures { result ≡ op_operand self.now }
    {
        match self {
            Op::Claim(_, value) | Op::Update(_, value) => Operand::Value(*value),
            Op::Release(_) => Operand::Nothing,
            Op::Transfer(_, owner) => Operand::Owner(*owner),
        }
    }

    /// The operation of these parts: the kind, the name, and what a kind of this shape has beside the name.
    #[inline]
    #[tactic(auto, using(crate::proofs::PartLemmas::nothing_again, crate::proofs::PartLemmas::value_again, crate::proofs::PartLemmas::owner_again))]
    pub fn of(kind: OpKind, name: &Name, operand: &Operand) -> Op
        requires { operand_shape operand.now ≡ op_shape kind }
        ensures whole { result ≡ op_of kind name.now operand.now }
        ensures of_kind { op_kind result ≡ kind }
        ensures of_name { op_name result ≡ name.now }
        ensures of_operand { op_operand result ≡ operand.now }
    {
        match kind {
            OpKind::Claim => Op::Claim(*name, *operand.value()),
            OpKind::Update => Op::Update(*name, *operand.value()),
            OpKind::Release => Op::Release(*name),
            OpKind::Transfer => Op::Transfer(*name, operand.owner()),
        }
    }

    /// Its parts make it again: parts and whole are inverse, and `of` says the other half.
    #[tactic(auto, using(crate::proofs::PartLemmas::op_again, crate::proofs::PartLemmas::op_shaped))]
    pub fn again(&self) -> Op
        ensures { result ≡ self.now }
    {
        Op::of(self.kind(), self.name(), &self.operand())
    }

    /// Whether two operations are one, with name, value and new owner.
    pub fn is_same(&self, other: &Op) -> bool
        ensures { result ≡ is_same_op self.now other.now }
    {
        match (self, other) {
            (Op::Claim(name, value), Op::Claim(name_2, value_2)) => name == name_2
                && value == value_2,
            (Op::Update(name, value), Op::Update(name_2, value_2)) => name == name_2
                && value == value_2,
            (Op::Release(name), Op::Release(name_2)) => name == name_2,
            (Op::Transfer(name, owner), Op::Transfer(name_2, owner_2)) => name == name_2
                && owner == owner_2,
            _ => false,
        }
    }
}

/// A command: who asks, and for what.
#[derive(Clone, Copy, Debug)]
pub struct Command {
    pub request: RequestNo,
    pub op: Op,
}

impl Command {
    /// Whether two commands are one: request number and operation.
    pub fn is_same(&self, other: &Command) -> bool
        ensures { result ≡ is_same_command self.now other.now }
    {
        self.request.is_same(other.request) && self.op.is_same(&other.op)
    }
}

/// What a reply says, whoever has the name.
#[derive(Clone, Copy, Debug)]
pub enum ReplyKind {
    Claimed,
    Updated,
    Released,
    Transferred,
    Taken,
    Unknown,
    NotOwner,
    Full,
}

impl ReplyKind {
    /// Its word in texts.
    #[inline]
    pub fn word(self) -> &'static str
        ensures { result.now ≡ reply_word self }
    {
        match self {
            ReplyKind::Claimed => "claimed",
            ReplyKind::Updated => "updated",
            ReplyKind::Released => "released",
            ReplyKind::Transferred => "transferred",
            ReplyKind::Taken => "taken",
            ReplyKind::Unknown => "unknown",
            ReplyKind::NotOwner => "notowner",
            ReplyKind::Full => "full",
        }
    }

    /// The words of all kinds, of which one is expected.
    pub fn choice() -> &'static str
        ensures { result.now ≡ either (map reply_word reply_kinds) }
    {
        "claimed, updated, released, transferred, taken, unknown, notowner or full"
    }

    /// The kind of a word. It is told by the first bytes, and then compared with one word alone.
    pub fn of_word(word: &[u8]) -> Option<ReplyKind>
        ensures { result ≡ find_by reply_word word.now reply_kinds }
    {
        let kind = match word {
            [b'c', ..] => ReplyKind::Claimed,
            [b'u', b'p', ..] => ReplyKind::Updated,
            [b'r', ..] => ReplyKind::Released,
            [b't', b'r', ..] => ReplyKind::Transferred,
            [b't', ..] => ReplyKind::Taken,
            [b'u', ..] => ReplyKind::Unknown,
            [b'n', ..] => ReplyKind::NotOwner,
            [b'f', ..] => ReplyKind::Full,
            _ => return None,
        };
        if word == kind.word().as_bytes() {
            Some(kind)
        } else {
            None
        }
    }
}

/// What the registry answers to a command.
#[derive(Clone, Copy, Debug, PartialEq, Eq)]
pub enum Reply {
    Claimed,
    Updated,
    Released,
    Transferred,
    /// The name is bound by this client.
    Taken(u32),
    /// No client has the name.
    Unknown,
    /// Another client has the name.
    NotOwner,
    /// As many names are bound as the registry holds.
    Full,
}

impl Reply {
    /// What it says, whoever has the name.
    #[inline]
    pub fn kind(self) -> ReplyKind
        ensures { result ≡ reply_kind self }
    {
        match self {
            Reply::Claimed => ReplyKind::Claimed,
            Reply::Updated => ReplyKind::Updated,
            Reply::Released => ReplyKind::Released,
            Reply::Transferred => ReplyKind::Transferred,
            Reply::Taken(_) => ReplyKind::Taken,
            Reply::Unknown => ReplyKind::Unknown,
            Reply::NotOwner => ReplyKind::NotOwner,
            Reply::Full => ReplyKind::Full,
        }
    }

    /// The owner that it names.
    #[inline]
    pub fn owner(self) -> Option<u32>
        ensures { result ≡ reply_owner self }
    {
        match self {
            Reply::Taken(owner) => Some(owner),
            _ => None,
        }
    }

    /// The reply of these parts; none where the kind names an owner and none is there, or the other way round.
    #[inline]
    pub fn of(kind: ReplyKind, owner: Option<u32>) -> Option<Reply>
        ensures { result ≡ reply_with kind owner }
    {
        match (kind, owner) {
            (ReplyKind::Claimed, None) => Some(Reply::Claimed),
            (ReplyKind::Updated, None) => Some(Reply::Updated),
            (ReplyKind::Released, None) => Some(Reply::Released),
            (ReplyKind::Transferred, None) => Some(Reply::Transferred),
            (ReplyKind::Taken, Some(owner)) => Some(Reply::Taken(owner)),
            (ReplyKind::Unknown, None) => Some(Reply::Unknown),
            (ReplyKind::NotOwner, None) => Some(Reply::NotOwner),
            (ReplyKind::Full, None) => Some(Reply::Full),
            _ => None,
        }
    }

    /// Its parts make it again: parts and whole are inverse.
    #[tactic(auto, using(crate::proofs::PartLemmas::reply_again))]
    pub fn again(self) -> Option<Reply>
        ensures { result ≡ Some self }
    {
        Reply::of(self.kind(), self.owner())
    }
}
