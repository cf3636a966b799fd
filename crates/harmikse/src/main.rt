// The service over standard input: a line for each record.
#![tactic(auto)]

ghost use Rattle.std.specs.Prelude.{◌≡◌, true, false, ◌≤◌, ◌<◌, length, take};
ghost use Rattle.terms.specs.Pairs.{pair_count};
ghost use Rattle.terms.specs.Limits.{SPAN_NUMBERS};
ghost use Rattle.commands.specs.Buffers.{lent};
ghost use Rattle.lines.specs.Lines.{line_text};
ghost use Rattle.harmikse.specs.Program.{LIMIT, goes_on, Prints, Whole};
ghost use Rattle.harmikse.specs.Code.{is_end, On, Runs};

use terms::{Answer, LABEL_ENTRIES, LINK_ENTRIES, SPAN_NUMBERS};

const LIMIT: usize = 65_536;

fn main(rt: HostRuntime) {
    // The one byte more than the limit shows that there is more.
    let mut input = [0u8; 65537];
    let Ok(count) = listing::read_input(&rt, &mut input, b"harmikse: standard input") else {
        return;
    };
    if LIMIT < count {
        print_line(&rt, b"input too long\n", 15, &input[..count], 1);
        return;
    }
    run(&rt, &input[..count]);
}

// Where the next record starts, how many lines are printed, whether the run goes on, and whether a write failed.
#[derive(Drop)]
pub struct Place {
    pub at: usize,
    pub printed: usize,
    pub going: bool,
    pub failed: bool,
}

fn run(rt: &(impl Print + Eprint), input: &[u8]) -> Place
    requires { length input.now ≤ LIMIT }
    ensures { result.failed ≡ false → Whole input.now result.printed }
{
    let mut block = [0u8; block::SIZE];
    let mut labels = [0u64; LABEL_ENTRIES];
    let mut links = [0u8; LINK_ENTRIES];
    let mut spans = [0i32; SPAN_NUMBERS];
    let mut place = Place {
        at: 0,
        printed: 0,
        going: true,
        failed: false,
    };
    while place.going {
        place = step(
            rt,
            &mut block,
            &mut labels,
            &mut links,
            &mut spans,
            input,
            place,
        );
    }
    place
}

// Handles the record where the run is and prints its line.
fn step(
    rt: &(impl Print + Eprint),
    block: &mut [u8],
    labels: &mut [u64],
    links: &mut [u8],
    spans: &mut [i32],
    input: &[u8],
    place: Place,
) -> Place
    requires { (length input.now ≤ LIMIT) × (SPAN_NUMBERS ≤ length spans.old)
        × On input.now (lent block.old labels.old links.old spans.old) place.printed place.at }
    ensures runs { Runs input.now (lent block.new labels.new links.new spans.new) result }
    ensures at_lt_at { result.going ≡ true → place.at < result.at }
{
    let at = place.at;
    let reply = service::record_at(block, labels, links, spans, input, at);
    let answer = reply.answer;
    if is_end(answer) {
        return Place {
            at,
            printed: place.printed,
            going: false,
            failed: false,
        };
    }
    let number = place.printed + 1;
    let next = at + reply.used;
    let written = print_answer(rt, number, answer, spans, input);
    Place {
        at: next,
        printed: number,
        going: written & goes_on(answer),
        failed: !written,
    }
}

fn is_end(answer: Answer) -> bool
    ensures { result ≡ is_end answer }
{
    matches!(answer, Answer::End)
}

fn goes_on(answer: Answer) -> bool
    ensures { result ≡ goes_on answer }
{
    match answer {
        Answer::End => false,
        Answer::Refused(number) => number != 3,
        _ => true,
    }
}

// The line of a record, whose number and answer these are.
fn print_answer(
    rt: &(impl Print + Eprint),
    number: usize,
    answer: Answer,
    spans: &[i32],
    input: &[u8],
) -> bool
    requires { (pair_count answer ≤ 97) × (SPAN_NUMBERS ≤ length spans.now)
        × Prints input.now number (line_text number answer spans.now) }
{
    let mut line = [0u8; 4326];
    let count = lines::line(&mut line, number as u64, answer, spans);
    print_line(rt, &line, count, input, number)
}

// Writes the first bytes of a buffer, which are to be the line of that number for this input.
fn print_line(
    rt: &(impl Print + Eprint),
    line: &[u8],
    count: usize,
    input: &[u8],
    number: usize,
) -> bool
    requires { (count ≤ length line.now) × Prints input.now number (take count line.now) }
{
    listing::print(rt, &line[..count], b"harmikse: standard output")
}
