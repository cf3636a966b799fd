// The changes of the settings, with their refusals: the counting or the hole set, the profile switched on.
#![tactic(auto)]

ghost use Rattle.terms.specs.declared.Hole.TheVariants as Bored;
ghost use Rattle.terms.specs.declared.Profile.TheVariants as Switched;
ghost use Rattle.terms.specs.Held.{with_settings, with_counting, with_hole, with_profile};
ghost use Rattle.state.specs.State.{CountsIn, held_of, ChangeAs};
ghost use Rattle.state.specs.Holding.{Holds};
ghost use Rattle.settings.specs.Changes.{count_tests, confine_tests, restrict_tests};

use state::State;
use terms::{Counting, Hole, Profile, Refusal, Settings, require};

// Other settings, with the lists as they are.
fn with_settings(state: State, settings: Settings) -> State
    requires { CountsIn state }
    ensures { Holds (with_settings (held_of state) settings) result }
{
    let mut next = state;
    next.settings = settings;
    next
}

// The counting set, where no rule is held: rules are written for one.
pub fn count(state: State, counting: Counting) -> Result<State, Refusal>
    requires { CountsIn state }
    ensures { ChangeAs (count_tests (held_of state)) (with_counting (held_of state) counting) result }
{
    require(state.rule_count == 0, Refusal::RulesHeld)?;
    let settings = Settings {
        counting,
        ..state.settings
    };
    Ok(with_settings(state, settings))
}

// The hole set, where no mark is held: none may lie outside it.
pub fn confine(state: State, top: i32, bottom: i32) -> Result<State, Refusal>
    requires { CountsIn state }
    ensures { ChangeAs (confine_tests (held_of state)) (with_hole (held_of state) (Bored.Part top bottom)) result }
{
    require(state.mark_count == 0, Refusal::MarksHeld)?;
    let settings = Settings {
        hole: Hole::Part(top, bottom),
        ..state.settings
    };
    Ok(with_settings(state, settings))
}

// The profile switched on, where each held rule is in it.
pub fn restrict(state: State) -> Result<State, Refusal>
    requires { CountsIn state }
    ensures { ChangeAs (restrict_tests (held_of state)) (with_profile (held_of state) Switched.On) result }
{
    let admitted = scans::rules_admitted(state.rules(), Profile::On);
    require(admitted, Refusal::OutsideProfile)?;
    let settings = Settings {
        profile: Profile::On,
        ..state.settings
    };
    Ok(with_settings(state, settings))
}
