// The spans of a label, written to the lent buffer.
#![tactic(auto)]

ghost use Rattle.std.specs.Prelude.{◌≡◌, [], ◌∷◌, pred, ◌+◌, ◌*◌, ◌<◌, ◌≤◌, length};
ghost use Rattle.terms.specs.Limits.{INTERVALS};
ghost use Rattle.terms.specs.HoleLaws.{line_of};
ghost use Rattle.terms.specs.Spans.{run};
ghost use Rattle.line.specs.CutList.{cut_list};
ghost use Rattle.spans.specs.Runs.{stretch_of, runs, has_label};
ghost use Rattle.spans.specs.Code.{laid, given, ended_at, begun_after, InTable, ToWrite, SpansWritten, ToEnd, ToPass, ToStep, Stepped};

use line::Cuts;
use terms::{Hole, INTERVALS};

// Whether the item has the label at the interval, by the label table.
pub fn has_label(labels: &[u64], item: usize, label: usize, p: usize) -> bool
    requires { InTable labels.now item label × (p < INTERVALS) }
    ensures { result ≡ has_label labels.now item label p }
{
    words::bit(labels[item * INTERVALS + p], label) == 1
}

// At which interval the span that has begun did, if one has, and how many are written.
#[derive(Drop)]
struct Progress {
    since: Option<usize>,
    count: usize,
}

// A span's two ends.
#[derive(Drop)]
pub struct Ends {
    pub top: i32,
    pub bottom: i32,
}

// The ends of the span from interval `since` to the one before `p`.
fn ends_of(cuts: &Cuts, since: usize, p: usize, hole: Hole) -> Ends
    requires { ToEnd (cut_list cuts.now) since p }
    ensures { run result.top result.bottom ≡ stretch_of (line_of hole) (cut_list cuts.now) since (pred p) }
{
    Ends {
        top: cuts.top_from(since, hole.top()),
        bottom: cuts.bottom_to(p - 1, hole.bottom()),
    }
}

// Goes on to interval `p`: where it does not have the label, the span that has begun ends before it, and is given.
pub fn pass(since: &mut Option<usize>, p: usize, has: bool, cuts: &Cuts, hole: Hole) -> Option<Ends>
    requires { ToPass (cut_list cuts.now) p since.old }
    ensures begun { since.new ≡ begun_after p has since.old }
    ensures ended { given result ≡ ended_at (line_of hole) (cut_list cuts.now) p has since.old }
{
    if has {
        *since = since.or(Some(p));
        return None;
    }
    let begun = since.take()?;
    Some(ends_of(cuts, begun, p, hole))
}

// Writes a span's two ends as pair number `place`.
fn put_pair(spans: &mut [i32], place: usize, span: Ends)
    requires { 2 * place + 2 ≤ length spans.old }
    ensures { spans.new ≡ laid spans.old (2 * place) (span.top ∷ (span.bottom ∷ [])) }
{
    spans[2 * place] = span.top;
    spans[2 * place + 1] = span.bottom;
}

// Goes on to interval `p`, and writes the span that ends before it.
fn step(spans: &mut [i32], state: &mut Progress, p: usize, has: bool, cuts: &Cuts, hole: Hole)
    requires { ToStep (line_of hole) spans.old (cut_list cuts.now) p has state.old }
    ensures { Stepped (line_of hole) (cut_list cuts.now) p has state.old spans.old spans.new state.new }
{
    if let Some(ended) = pass(&mut state.since, p, has, cuts, hole) {
        put_pair(spans, state.count, ended);
        state.count += 1;
    }
}

// Writes the spans of an item's label inside the hole, and gives how many there are.
pub fn write_spans(
    spans: &mut [i32],
    labels: &[u64],
    item: usize,
    label: usize,
    cuts: &Cuts,
    hole: Hole,
) -> usize
    requires { ToWrite spans.old labels.now item label }
    ensures { SpansWritten (runs (line_of hole) (cut_list cuts.now) (has_label labels.now item label)) spans.old spans.new result }
{
    let mut state = Progress {
        since: None,
        count: 0,
    };
    let n = cuts.len();
    // Not `0..=n`, which does not come to the loop's head behind the last interval, where `each-interval-here` speaks of it too.
    for p in 0..n + 1 {
        let has = has_label(labels, item, label, p);
        step(spans, &mut state, p, has, cuts, hole);
    }
    step(spans, &mut state, n + 1, false, cuts, hole);
    state.count
}
