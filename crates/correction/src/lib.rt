// A stretch correction of what is held: all marks and the hole are moved, or none.
#![tactic(auto)]

ghost use Rattle.std.specs.Prelude.{T};
ghost use Rattle.shift.specs.Shifted.{stays, shifted};
ghost use Rattle.state.specs.State.{CountsIn, held_of, ChangeAs};
ghost use Rattle.state.specs.Holding.{Holds};
ghost use Rattle.correction.specs.Changes.{shift_tests};

use state::State;
use terms::{Refusal, require};

// All marks and the hole moved.
fn shifted(state: State, by: i32) -> State
    requires counts_in { CountsIn state }
    requires t { T (stays by (held_of state)) }
    ensures { Holds (shifted by (held_of state)) result }
{
    let mut marks = state.marks;
    let held = &mut marks[..state.mark_count];
    shift::shift_marks(held, by);
    let mut moved = State { marks, ..state };
    moved.settings.hole = shift::hole_shifted(state.settings.hole, by);
    moved
}

// So, where no depth leaves its range.
pub fn shift(state: State, by: i32) -> Result<State, Refusal>
    requires { CountsIn state }
    ensures { ChangeAs (shift_tests (held_of state) by) (shifted by (held_of state)) result }
{
    let marks_stay = shift::marks_stay(state.marks(), by);
    let hole_stays = shift::hole_stays(state.settings.hole, by);
    require(marks_stay & hole_stays, Refusal::BadDepth)?;
    Ok(shifted(state, by))
}
