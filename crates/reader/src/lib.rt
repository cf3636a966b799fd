// 01, Records: a reader carries the input slice and how far it has read; `frame_at`, on slice and place, does the work.
#![tactic(auto)]

ghost use Rattle.std.specs.Prelude.{◌≡◌, drop};
ghost use Rattle.frames.specs.Framing.{framed};
ghost use Rattle.terms.specs.Otherwise.{by_number};
ghost use Rattle.reader.specs.Code.{input_of, ParsedAs};

use frames::Framed;
use records::Command;
use terms::{Refusal, Settings};

#[derive(Drop)]
pub struct Reader<'a> {
    pub src: &'a [u8],
    pub at: usize,
}

// The work: the frame of what stands from a place of the input on.
pub fn frame_at(src: &[u8], at: usize) -> Framed
    ensures { result ≡ framed (drop at src.now) }
{
    if at >= src.len() {
        return Framed::Nothing;
    }
    frames::frame(&src[at..])
}

// A reader that has read up to a place.
pub fn from<'a>(src: &'a [u8], at: usize) -> Reader<'a>
    ensures { (result.src ≡ src.entry) × (result.at ≡ at) }
{
    Reader { src, at }
}

// The frame of the record that comes next.
pub fn next<'a>(r: Reader<'a>) -> Framed
    ensures { result ≡ framed (drop r.entry.at r.entry.src.now) }
{
    frame_at(r.src, r.at)
}

// The frame at a place of the input, for callers that hold slice and place themselves.
pub fn read(src: &[u8], at: usize) -> Framed
    ensures there { result ≡ framed (drop at src.now) }
{
    next(from(src, at))
}

// What is left of the input, read: nothing; a refusal's number and the bytes used; a command and the bytes of its record. The body stands beside it in
// the input. (Three outcomes, so no Result; the number is what the reply gives. The state is not handed through the reading: each hand-on by value is a copy on the stack.)
#[derive(Drop)]
pub enum Input {
    Nothing,
    Refused(u8, usize),
    Record(Command, usize),
}

// A body that was decoded, with the bytes of its record.
fn input_of(decoded: Result<Command, Refusal>, used: usize) -> Input
    ensures { result ≡ input_of (by_number decoded) used }
{
    match decoded {
        Ok(command) => Input::Record(command, used),
        Err(refusal) => Input::Refused(refusal.number(), used),
    }
}

// What is left of the input from a place on: the frame, then the body under the settings.
pub fn parse(settings: Settings, input: &[u8], at: usize) -> Input
    ensures { ParsedAs settings (drop at input.now) result }
{
    match read(input, at) {
        Framed::Nothing => Input::Nothing,
        Framed::Refused(number, used) => Input::Refused(number, used),
        Framed::Record(kind, used) => input_of(
            records::decode_body(settings, kind, &input[at + 4..at + used]),
            used,
        ),
    }
}
