// What every question goes through: both tables derived from what is held, a contradiction looked for, and else the answer read off them.
#![tactic(auto)]

ghost use Rattle.std.specs.Prelude.{◌≡◌, ◌≤◌, length, T};
ghost use Rattle.terms.specs.Limits.{LABEL_ENTRIES, LINK_ENTRIES};
ghost use Rattle.terms.specs.Held.{is_question};
ghost use Rattle.logic.specs.Classes.{concerns_b};
ghost use Rattle.line.specs.CutList.{cut_list};
ghost use Rattle.state.specs.State.{held_of};
ghost use Rattle.tables.specs.Seeded.{TablesDerived};
ghost use Rattle.verdicts.specs.Reading.{clash_in};
ghost use Rattle.questions.specs.Code.{HeldState, ToRead, ReadOff, ToAnswer, Answered-as};

use line::Cuts;
use state::State;
use terms::{Answer, Hole, Question};

// Both tables from what is held, and its cuts.
pub fn derive(state: &State, labels: &mut [u64], links: &mut [u8]) -> Cuts
    requires { HeldState state.now × (LABEL_ENTRIES ≤ length labels.old) × (LINK_ENTRIES ≤ length links.old) }
    ensures { TablesDerived (held_of state.now) labels.old links.old labels.new links.new result }
{
    tables::derive(labels, links, state.rules(), state.marks(), state.settings)
}

// What the tables clash at, of the items that the question concerns.
pub fn clash_of(state: &State, labels: &[u64], question: Question) -> Option<u8>
    requires { HeldState state.now × (LABEL_ENTRIES ≤ length labels.now) × T (is_question question) }
    ensures { result ≡ clash_in (concerns_b (held_of state.now).marks question) labels.now }
{
    verdicts::clash_in(labels, joined::concerned(state.marks(), question))
}

// What the tables say of a question where nothing is contradictory; spans go to their buffer.
fn read_off(
    labels: &[u64],
    links: &[u8],
    spans: &mut [i32],
    cuts: &Cuts,
    hole: Hole,
    question: Question,
) -> Answer
    requires { ToRead labels.now links.now spans.old question }
    ensures { ReadOff hole (cut_list cuts.now) labels.now links.now question spans.old spans.new result }
{
    match question {
        Question::Holds(atom, depth) => {
            let p = cuts.interval_of(depth);
            if hole.contains(depth) && verdicts::holds(labels, links, atom, p) {
                return Answer::Yes;
            }
            Answer::No
        }
        Question::Spans(item, label) => {
            let count = spans::write_spans(
                spans,
                labels,
                usize::from(item),
                usize::from(label),
                cuts,
                hole,
            );
            Answer::Spans(count as u16)
        }
    }
}

// Derive, then contradiction, then the answer: what every question goes through.
pub fn answer(
    state: &State,
    labels: &mut [u64],
    links: &mut [u8],
    spans: &mut [i32],
    question: Question,
) -> Answer
    requires { ToAnswer state.now labels.old links.old spans.old question }
    ensures { Answered-as (held_of state.now) question labels.old links.old spans.old
        labels.new links.new spans.new result }
{
    let cuts = derive(state, labels, links);
    match clash_of(state, labels, question) {
        Some(item) => Answer::Contradiction(item),
        None => read_off(labels, links, spans, &cuts, state.settings.hole, question),
    }
}
