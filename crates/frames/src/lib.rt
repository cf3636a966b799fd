// The frame of a record: its length field and kind, and the lengths that each kind may have.
#![tactic(auto)]

ghost use Rattle.std.specs.Prelude.{◌≡◌};
ghost use Rattle.refusals.specs.Refusals.{tested as testedBy};
ghost use Rattle.terms.specs.Otherwise.{by_number};
ghost use Rattle.frames.specs.Frames.{lengths_of};
ghost use Rattle.frames.specs.Framing.{kind_tests, framed, framed_as};

use terms::{Refusal, require};

// The lengths that a kind's records may have; unknown for a kind that there is not.
#[derive(Drop)]
pub enum Lengths {
    Exactly(usize),
    AtLeast(usize),
    Unknown,
}

// The frame of what is left: nothing; a refusal's number and the bytes used; a kind and the bytes of its record. (Three outcomes, so no Result; the
// number is what the reply gives.)
#[derive(Drop)]
pub enum Framed {
    Nothing,
    Refused(u8, usize),
    Record(u16, usize),
}

// The table of kinds: lengths.
#[tactic(auto, unfolding(crate::specs::Frames::lengths_of))]
fn lengths_of(kind: u16) -> Lengths
    ensures { result ≡ lengths_of kind }
{
    match kind {
        1 => Lengths::Exactly(2),
        2 => Lengths::Exactly(9),
        3 => Lengths::Exactly(5),
        4 => Lengths::Exactly(9),
        5 => Lengths::Exactly(5),
        6 => Lengths::Exactly(8),
        7 => Lengths::Exactly(9),
        8 => Lengths::Exactly(8),
        9 => Lengths::Exactly(9),
        10 => Lengths::Exactly(12),
        11 => Lengths::Exactly(13),
        12 => Lengths::Exactly(4),
        13 => Lengths::Exactly(12),
        14 => Lengths::Exactly(13),
        15 => Lengths::Exactly(12),
        16 => Lengths::Exactly(13),
        17 => Lengths::Exactly(3),
        18 => Lengths::Exactly(10),
        20 => Lengths::Exactly(6),
        21 => Lengths::Exactly(2),
        _ => Lengths::Unknown,
    }
}

impl Lengths {
    // A known kind, and a length that its records may have.
    fn tested(self, length: usize) -> Result<(), Refusal>
        ensures { by_number result ≡ testedBy (kind_tests self length) }
    {
        match self {
            Lengths::Exactly(n) => require(length == n, Refusal::BadLength),
            Lengths::AtLeast(n) => require(n <= length, Refusal::BadLength),
            Lengths::Unknown => Err(Refusal::UnknownKind),
        }
    }
}

// The record of a kind where no test applies.
fn framed_by(tested: Result<(), Refusal>, kind: u16, used: usize) -> Framed
    ensures { result ≡ framed_as (by_number tested) kind used }
{
    match tested {
        Ok(()) => Framed::Record(kind, used),
        Err(refusal) => Framed::Refused(refusal.number(), used),
    }
}

// The frame of what is left of the input. The body is what stands behind its first four bytes.
pub fn frame(input: &[u8]) -> Framed
    ensures { result ≡ framed input.now }
{
    if input.len() == 0 {
        return Framed::Nothing;
    }
    if input.len() < 4 {
        return Framed::Refused(Refusal::BadFrame.number(), input.len());
    }
    let length = codec::u16_at(input, 0) as usize;
    if length < 2 {
        return Framed::Refused(Refusal::BadFrame.number(), input.len());
    }
    if input.len() - 2 < length {
        return Framed::Refused(Refusal::BadFrame.number(), input.len());
    }
    let kind = codec::u16_at(input, 2);
    let tested = lengths_of(kind).tested(length);
    framed_by(tested, kind, length + 2)
}
