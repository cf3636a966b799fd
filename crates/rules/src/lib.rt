// The change of the list of rules, with its refusals: a rule added.
#![tactic(auto)]

ghost use Rattle.std.specs.Prelude.{◌≡◌, ◌<◌};
ghost use Rattle.terms.specs.Limits.{RULES};
ghost use Rattle.terms.specs.Otherwise.{by_number};
ghost use Rattle.refusals.specs.Refusals.{tested as testedBy};
ghost use Rattle.state.specs.State.{CountsIn, held_of, ChangeAs};
ghost use Rattle.state.specs.Holding.{Holds};
ghost use Rattle.rules.specs.Changes.{list_tests, rule_tests, add_rule};

use state::State;
use terms::{RULES, Refusal, Rule, require};

// The tests of a rule to add, among the held ones.
fn list_tested(state: &State, rule: Rule) -> Result<(), Refusal>
    requires { CountsIn state.now }
    ensures { by_number result ≡ testedBy (list_tests (held_of state.now) rule) }
{
    require(!scans::has_rule(state.rules(), rule), Refusal::AlreadyHeld)?;
    require(state.rule_count < RULES, Refusal::ListFull)
}

// Before them, that the profile admits it.
fn rule_tested(state: &State, rule: Rule) -> Result<(), Refusal>
    requires { CountsIn state.now }
    ensures { by_number result ≡ testedBy (rule_tests (held_of state.now) rule) }
{
    let admitted = profile::admits(state.settings.profile, rule);
    require(admitted, Refusal::OutsideProfile)?;
    list_tested(state, rule)
}

fn add_rule(state: State, rule: Rule) -> State
    requires counts_in { CountsIn state }
    requires rule_count_bound { state.rule_count < RULES }
    ensures { Holds (add_rule (held_of state) rule) result }
{
    let mut next = state;
    next.rules[state.rule_count] = rule;
    next.rule_count += 1;
    next
}

// The rule at the end of its list.
pub fn with_rule(state: State, rule: Rule) -> Result<State, Refusal>
    requires { CountsIn state }
    ensures { ChangeAs (rule_tests (held_of state) rule) (add_rule (held_of state) rule) result }
{
    rule_tested(&state, rule)?;
    Ok(add_rule(state, rule))
}
