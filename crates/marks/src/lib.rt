// The changes of the list of marks, with their refusals: a mark put or taken.
#![tactic(auto)]

ghost use Rattle.std.specs.Prelude.{◌≡◌, ◌++◌, ◌+◌, ◌<◌, T, take, drop};
ghost use Rattle.terms.specs.Limits.{MARKS};
ghost use Rattle.terms.specs.Held.{is_mark, with_marks};
ghost use Rattle.terms.specs.Places.{MarksNamed};
ghost use Rattle.terms.specs.Otherwise.{by_number};
ghost use Rattle.refusals.specs.Refusals.{tested as testedBy};
ghost use Rattle.state.specs.State.{CountsIn, held_of, ChangeAs};
ghost use Rattle.state.specs.Holding.{Holds};
ghost use Rattle.marks.specs.Changes.{room_tests, put_tests, take_tests, put_mark, take_mark};

use state::State;
use terms::{DEPTHS, MARKS, Mark, Refusal, require};

// The tests of a mark to put, among the held ones.
fn room_tested(state: &State, mark: Mark) -> Result<(), Refusal>
    requires counts_in { CountsIn state.now }
    requires marks_named { MarksNamed (held_of state.now).marks }
    requires t { T (is_mark mark) }
    ensures { by_number result ≡ testedBy (room_tests (held_of state.now) mark) }
{
    let same = scans::mark_index(state.marks(), mark);
    require(same.is_none(), Refusal::AlreadyHeld)?;
    let count = state.mark_count;
    require(count < MARKS, Refusal::ListFull)?;
    let mut marks = state.marks;
    marks[count] = mark;
    let depths = scans::depth_count(&marks[..count + 1]);
    require(depths <= DEPTHS, Refusal::TooManyDepths)
}

// Before them, that it does not reach outside the hole.
fn put_tested(state: &State, mark: Mark) -> Result<(), Refusal>
    requires counts_in { CountsIn state.now }
    requires marks_named { MarksNamed (held_of state.now).marks }
    requires t { T (is_mark mark) }
    ensures { by_number result ≡ testedBy (put_tests (held_of state.now) mark) }
{
    require(mark.lies_in(state.settings.hole), Refusal::OutsideHole)?;
    room_tested(state, mark)
}

fn add_mark(state: State, mark: Mark) -> State
    requires counts_in { CountsIn state }
    requires mark_count_bound { state.mark_count < MARKS }
    ensures { Holds (put_mark (held_of state) mark) result }
{
    let mut next = state;
    next.marks[state.mark_count] = mark;
    next.mark_count += 1;
    next
}

// The mark at the end of its list.
pub fn put(state: State, mark: Mark) -> Result<State, Refusal>
    requires counts_in { CountsIn state }
    requires marks_named { MarksNamed (held_of state).marks }
    requires t { T (is_mark mark) }
    ensures { ChangeAs (put_tests (held_of state) mark) (put_mark (held_of state) mark) result }
{
    put_tested(&state, mark)?;
    Ok(add_mark(state, mark))
}

// The list without the mark at the place: those behind it move up.
fn without(state: State, at: usize) -> State
    requires counts_in { CountsIn state }
    requires at_lt_count { at < state.mark_count }
    ensures { Holds (with_marks (held_of state) (take at (held_of state).marks ++ drop (at + 1) (held_of state).marks)) result }
{
    let mut next = state;
    next.marks.copy_within(at + 1..state.mark_count, at);
    next.mark_count -= 1;
    next
}

// The mark away from its list.
pub fn take(state: State, mark: Mark) -> Result<State, Refusal>
    requires counts_in { CountsIn state }
    requires marks_named { MarksNamed (held_of state).marks }
    requires t { T (is_mark mark) }
    ensures { ChangeAs (take_tests (held_of state) mark) (take_mark (held_of state) mark) result }
{
    match scans::mark_index(state.marks(), mark) {
        Some(at) => Ok(without(state, at)),
        None => Err(Refusal::NotHeld),
    }
}
