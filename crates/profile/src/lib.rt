// 02's print profile: which rules are in it, and which a profile that is off or on lets be held.
#![tactic(auto)]

ghost use Rattle.std.specs.Prelude.{◌≡◌};
ghost use Rattle.terms.specs.Profiles.{is_printed, is_every, in_profile, admits};

use terms::{EVERY, Operator, Profile, Rule};

// The operator gives nothing beyond the depths that it is given.
fn is_printed(operator: Operator) -> bool
    ensures { result ≡ is_printed operator }
{
    match operator {
        Operator::Within(_) => true,
        Operator::Between => true,
        Operator::Above => false,
        Operator::Below => false,
        Operator::Anywhere => false,
    }
}

fn is_every(label: u8) -> bool
    ensures { result ≡ is_every label }
{
    label == EVERY
}

pub fn in_profile(rule: Rule) -> bool
    ensures { result ≡ in_profile rule }
{
    match rule {
        Rule::Label(operator, a, _) => is_printed(operator) & !is_every(a),
        Rule::Both(a, b, _) => !(is_every(a) & is_every(b)),
        Rule::Link(operator, _, _) => is_printed(operator),
        Rule::Via(_, _, _) => true,
    }
}

// The rule may be held.
pub fn admits(profile: Profile, rule: Rule) -> bool
    ensures { result ≡ admits profile rule }
{
    match profile {
        Profile::Off => true,
        Profile::On => in_profile(rule),
    }
}
