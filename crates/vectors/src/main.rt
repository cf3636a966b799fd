// Runs a script of calls against the service and prints what each call answers and leaves.
// The memory lent is all zero at first: block 5,120, labels 3,200, links 50,000, spans 256 elements.
// The steps, by their first byte, with numbers little-endian:
//   1 CALL   u16 lengths of block, labels, links, spans and input, then the input
//   2 SPANS  u16 lengths of block, labels, links, spans, then u8 item, u8 label
//   3 FILL   u8 which memory, in the order above, u8 seed
//   4 POKE   u16 place in the block, u8 value
// A line: number, answer, bytes used, and a checksum of each memory, whole.
#![tactic(auto)]

mod memory;

ghost use Rattle.std.specs.Prelude.{◌≡◌, true, ◌+◌, ◌≤◌, ◌<◌, IfSome, length};

use commands::Reply;
use memory::{BLOCK_ROOM, Checksums, LABEL_ROOM, LINK_ROOM, Memory, SPAN_ROOM};

const LIMIT: usize = 65_536;

fn main(rt: HostRuntime) {
    // The one byte more than the limit shows that there is more.
    let mut script = [0u8; 65537];
    let Ok(count) = listing::read_input(&rt, &mut script, b"vectors: standard input") else {
        return;
    };
    if LIMIT < count {
        bad(&rt);
        return;
    }
    run(&rt, &script[..count]);
}

// Where the next step starts, and how many lines are printed.
#[derive(Drop)]
struct Place {
    at: usize,
    number: usize,
}

fn run(rt: &(impl Print + Eprint), script: &[u8]) {
    let mut memory = Memory {
        block: [0; BLOCK_ROOM],
        labels: [0; LABEL_ROOM],
        links: [0; LINK_ROOM],
        spans: [0; SPAN_ROOM],
    };
    let mut place = Place { at: 0, number: 0 };
    while place.at < script.len() {
        let Some(next) = step(rt, script, place, &mut memory) else {
            return;
        };
        place = next;
    }
}

// Says that the script is bad, which ends the run.
fn bad(rt: &(impl Print + Eprint)) -> Option<Place>
    ensures { result ≡ None }
{
    listing::print(rt, b"bad script\n", b"vectors: standard output");
    None
}

// The place behind a step; none where the run ends there.
fn step(
    rt: &(impl Print + Eprint),
    script: &[u8],
    place: Place,
    memory: &mut Memory,
) -> Option<Place>
    requires { (place.number ≤ place.at) × (place.at < length script.now) }
    ensures { IfSome result (λ p. (p.number ≤ p.at) × (place.at < p.at) × (p.at ≤ length script.now)) }
{
    match script[place.at] {
        1 | 2 => call(rt, script, place, memory),
        3 => fill(rt, script, place, memory),
        4 => poke(rt, script, place, memory),
        _ => bad(rt),
    }
}

// CALL and SPANS, which have 11 bytes each; the input of CALL stands behind them.
fn call(
    rt: &(impl Print + Eprint),
    script: &[u8],
    place: Place,
    memory: &mut Memory,
) -> Option<Place>
    requires { (place.number ≤ place.at) × (place.at < length script.now) }
    ensures { IfSome result (λ p. (p.number ≤ p.at) × (place.at < p.at) × (p.at ≤ length script.now)) }
{
    let Some(lengths) = lengths_at(script, place.at) else {
        return bad(rt);
    };
    let reply = lend(script, place.at, lengths, memory);
    let number = place.number + 1;
    if !print_line(rt, number, reply, memory.sums()) {
        return None;
    }
    Some(Place {
        at: lengths.end,
        number,
    })
}

// Where the step ends, and the lengths at which it lends the memory.
#[derive(Clone, Copy)]
struct Lengths {
    end: usize,
    block: usize,
    labels: usize,
    links: usize,
    spans: usize,
}

// None where the script does not have the step whole, or where a length is past its memory.
fn lengths_at(script: &[u8], at: usize) -> Option<Lengths>
    requires { at < length script.now }
    ensures bounds { IfSome result (λ l. (l.block ≤ BLOCK_ROOM) × (l.labels ≤ LABEL_ROOM) × (l.links ≤ LINK_ROOM) × (l.spans ≤ SPAN_ROOM)) }
    ensures end { IfSome result (λ l. (at + 11 ≤ l.end) × (l.end ≤ length script.now)) }
{
    if script.len() - at < 11 {
        return None;
    }
    let lengths = Lengths {
        end: at + 11 + input_count(script[at], number_at(script, at + 9)),
        block: number_at(script, at + 1),
        labels: number_at(script, at + 3),
        links: number_at(script, at + 5),
        spans: number_at(script, at + 7),
    };
    if script.len() < lengths.end || !is_lendable(lengths) {
        return None;
    }
    Some(lengths)
}

fn is_lendable(lengths: Lengths) -> bool
    ensures { result ≡ true → (lengths.block ≤ BLOCK_ROOM) × (lengths.labels ≤ LABEL_ROOM) × (lengths.links ≤ LINK_ROOM) × (lengths.spans ≤ SPAN_ROOM) }
{
    lengths.block <= BLOCK_ROOM
        && lengths.labels <= LABEL_ROOM
        && lengths.links <= LINK_ROOM
        && lengths.spans <= SPAN_ROOM
}

// How many bytes of input a step has: SPANS has its item and label in the place of their number, and no input.
fn input_count(kind: u8, number: usize) -> usize
    requires { number ≤ 65535 }
    ensures { result ≤ 65535 }
{
    if kind == 2 { 0 } else { number }
}

fn number_at(script: &[u8], at: usize) -> usize
    requires { at + 2 ≤ length script.now }
    ensures { result ≤ 65535 }
{
    usize::from(codec::u16_at(script, at))
}

// Lends the first elements of each memory.
fn lend(script: &[u8], at: usize, lengths: Lengths, memory: &mut Memory) -> Reply
    requires input { (at + 11 ≤ lengths.end) × (lengths.end ≤ length script.now) }
    requires bounds { (lengths.block ≤ BLOCK_ROOM) × (lengths.labels ≤ LABEL_ROOM) × (lengths.links ≤ LINK_ROOM) × (lengths.spans ≤ SPAN_ROOM) }
{
    let Memory {
        block,
        labels,
        links,
        spans,
    } = memory;
    serve(
        first(block, lengths.block),
        first(labels, lengths.labels),
        first(links, lengths.links),
        first(spans, lengths.spans),
        &script[at..lengths.end],
    )
}

// The first elements of a memory.
fn first<T>(elements: &mut [T], count: usize) -> &mut [T]
    requires { count ≤ length elements.old }
{
    &mut elements[..count]
}

// SPANS: the call beside the records; CALL: a record call.
fn serve(
    block: &mut [u8],
    labels: &mut [u64],
    links: &mut [u8],
    spans: &mut [i32],
    step: &[u8],
) -> Reply
    requires { 11 ≤ length step.now }
{
    if step[0] == 2 {
        return service::spans_of(block, labels, links, spans, step[9], step[10]);
    }
    service::record(block, labels, links, spans, &step[11..])
}

// A line has 20 bytes for its number, a blank, 36 for each of six words with their numbers, and its end.
fn print_line(rt: &(impl Print + Eprint), number: usize, reply: Reply, sums: Checksums) -> bool {
    let mut line = [0u8; 238];
    let answer = reply.answer;
    let blank = lines::put_number(&mut line, 0, number as u64);
    let words = lines::put_text(&mut line, blank, b" ");
    let bytes = lines::put_answer(&mut line, words, answer);
    let used = lines::put_counted(&mut line, bytes, b" used ", reply.used as u64);
    let end = put_sums(&mut line, used, sums);
    let all = lines::put_text(&mut line, end, b"\n");
    listing::print(rt, &line[..all], b"vectors: standard output")
}

fn put_sums(out: &mut [u8], at: usize, sums: Checksums) -> usize
    requires { at + 144 ≤ length out.old }
    ensures upper_bound { result ≤ at + 144 }
    ensures out_len_unchanged { length out.new ≡ length out.old }
{
    let second = lines::put_counted(out, at, b" block ", sums.block);
    let third = lines::put_counted(out, second, b" labels ", sums.labels);
    let fourth = lines::put_counted(out, third, b" links ", sums.links);
    lines::put_counted(out, fourth, b" spans ", sums.spans)
}

// FILL: one memory, whole.
fn fill(
    rt: &(impl Print + Eprint),
    script: &[u8],
    place: Place,
    memory: &mut Memory,
) -> Option<Place>
    requires { (place.number ≤ place.at) × (place.at < length script.now) }
    ensures { IfSome result (λ p. (p.number ≤ p.at) × (place.at < p.at) × (p.at ≤ length script.now)) }
{
    let at = place.at;
    if script.len() - at < 3 || !memory.fill(script[at + 1], script[at + 2]) {
        return bad(rt);
    }
    Some(Place {
        at: at + 3,
        number: place.number,
    })
}

// POKE: one byte of the block.
fn poke(
    rt: &(impl Print + Eprint),
    script: &[u8],
    place: Place,
    memory: &mut Memory,
) -> Option<Place>
    requires { (place.number ≤ place.at) × (place.at < length script.now) }
    ensures { IfSome result (λ p. (p.number ≤ p.at) × (place.at < p.at) × (p.at ≤ length script.now)) }
{
    let at = place.at;
    if script.len() - at < 4 {
        return bad(rt);
    }
    let target = number_at(script, at + 1);
    if target >= BLOCK_ROOM {
        return bad(rt);
    }
    memory.block[target] = script[at + 3];
    Some(Place {
        at: at + 4,
        number: place.number,
    })
}
