// The program's lines as bytes in a buffer: what `specs/Lines.antt` says, laid from a place on.
#![tactic(auto)]

ghost use Rattle.std.specs.Prelude.{◌≡◌, ◌++◌, ◌+◌, ◌*◌, ◌≤◌, length, take, drop};
ghost use Rattle.terms.specs.Pairs.{pair_count};
ghost use Rattle.terms.specs.Limits.{SPAN_NUMBERS};
ghost use Rattle.lines.specs.Lines.{decimal, signed, end_text, pair_text, pairs_text, words, line_text, Laid};

use terms::{Answer, NO_BOTTOM, NO_TOP};

// Lays the bytes from `at` on and answers the place behind them; so do those below.
pub fn put_text(out: &mut [u8], at: usize, text: &[u8]) -> usize
    requires { at + length text.now ≤ length out.old }
    ensures { Laid text.now out.old at out.new result }
{
    let end = at + text.len();
    out[at..end].copy_from_slice(text);
    end
}

pub fn put_number(out: &mut [u8], at: usize, n: u64) -> usize
    requires { at + 20 ≤ length out.old }
    ensures { Laid (decimal n) out.old at out.new result }
{
    let mut digits = [0u8; 20];
    let first = decimal(n, &mut digits);
    put_text(out, at, &digits[first..])
}

// Puts a number's digits at the end of the buffer and answers where they start.
fn decimal(n: u64, digits: &mut [u8; 20]) -> usize
    ensures first { result ≤ 19 }
    ensures spelled { drop result digits.new ≡ decimal n }
{
    let mut at = 19;
    let mut rest = n;
    while rest >= 10 {
        digits[at] = b'0' + (rest % 10) as u8;
        rest /= 10;
        at -= 1;
    }
    digits[at] = b'0' + rest as u8;
    at
}

// A depth in decimal, with its sign.
fn put_depth(out: &mut [u8], at: usize, depth: i32) -> usize
    requires { at + 21 ≤ length out.old }
    ensures { Laid (signed depth) out.old at out.new result }
{
    let size = u64::from(depth.unsigned_abs());
    if depth < 0 {
        let digits = put_text(out, at, b"-");
        return put_number(out, digits, size);
    }
    put_number(out, at, size)
}

// A word of at most 16 bytes and its number.
pub fn put_counted(out: &mut [u8], at: usize, word: &[u8], n: u64) -> usize
    requires { (at + 36 ≤ length out.old) × (length word.now ≤ 16) }
    ensures { Laid (word.now ++ decimal n) out.old at out.new result }
{
    let next = put_text(out, at, word);
    put_number(out, next, n)
}

// The words of an answer, without the pairs of spans. By bytes and not by Display: the contract of `line` says which byte stands
// where, and a formatter's does not.
#[tactic(auto, unfolding(crate::specs::Lines::words))]
pub fn put_answer(out: &mut [u8], at: usize, a: Answer) -> usize
    requires { at + 36 ≤ length out.old }
    ensures { Laid (words a) out.old at out.new result }
{
    match a {
        Answer::Done => put_text(out, at, b"done"),
        Answer::Yes => put_text(out, at, b"yes"),
        Answer::No => put_text(out, at, b"no"),
        Answer::Contradiction(item) => put_counted(out, at, b"contradiction ", u64::from(item)),
        Answer::Spans(count) => put_counted(out, at, b"spans ", u64::from(count)),
        Answer::End => put_text(out, at, b"end"),
        Answer::Refused(number) => put_counted(out, at, b"refused ", u64::from(number)),
    }
}

// A depth, or a star for the number that means no end on its side: the C interface has that number.
fn put_end(out: &mut [u8], at: usize, depth: i32, none: i32) -> usize
    requires { at + 21 ≤ length out.old }
    ensures { Laid (end_text none depth) out.old at out.new result }
{
    if depth == none {
        return put_text(out, at, b"*");
    }
    put_depth(out, at, depth)
}

fn put_pair(out: &mut [u8], at: usize, top: i32, bottom: i32) -> usize
    requires { at + 44 ≤ length out.old }
    ensures { Laid (pair_text top bottom) out.old at out.new result }
{
    let upper = put_text(out, at, b" ");
    let colon = put_end(out, upper, top, NO_TOP);
    let lower = put_text(out, colon, b":");
    put_end(out, lower, bottom, NO_BOTTOM)
}

// Each two numbers as a pair.
fn put_pairs(out: &mut [u8], at: usize, spans: &[i32]) -> usize
    requires { at + 22 * length spans.now ≤ length out.old }
    ensures { Laid (pairs_text spans.now) out.old at out.new result }
{
    let mut next = at;
    for pair in spans.chunks_exact(2) {
        next = put_pair(out, next, pair[0], pair[1]);
    }
    next
}

fn pair_count(answer: Answer) -> usize
    ensures { result ≡ pair_count answer }
{
    match answer {
        Answer::Spans(count) => usize::from(count),
        _ => 0,
    }
}

// A line has 20 bytes for its number, a blank, 36 for the words, 44 for each of 97 pairs, and its end.
pub fn line(out: &mut [u8], number: u64, answer: Answer, spans: &[i32]) -> usize
    requires { (pair_count answer ≤ 97) × (SPAN_NUMBERS ≤ length spans.now) × (4326 ≤ length out.old) }
    ensures { Laid (line_text number answer spans.now) out.old 0 out.new result }
{
    let blank = put_number(out, 0, number);
    let words = put_text(out, blank, b" ");
    let pairs = put_answer(out, words, answer);
    let end = put_pairs(out, pairs, &spans[..2 * pair_count(answer)]);
    put_text(out, end, b"\n")
}
