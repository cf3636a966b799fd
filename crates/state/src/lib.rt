// What is held, by value: a fresh state, and the limits as a test.
#![tactic(auto)]

ghost use Rattle.std.specs.Prelude.{◌≡◌, take};
ghost use Rattle.terms.specs.Lists.{limits};
ghost use Rattle.state.specs.State.{CountsIn, held_of, empty_state};

use terms::{DEPTHS, MARKS, Mark, RULES, Rule, Settings};

// Each list is an array with its count beside it: no heap.
#[derive(Clone, Copy)]
pub struct State {
    pub rules: [Rule; RULES],
    pub rule_count: usize,
    pub marks: [Mark; MARKS],
    pub mark_count: usize,
    pub settings: Settings,
}

impl State {
    // A fresh state: all 128 rule places and all 256 mark places empty.
    pub fn empty() -> State
        ensures { result ≡ empty_state }
    {
        State {
            rules: [Rule::EMPTY; RULES],
            rule_count: 0,
            marks: [Mark::EMPTY; MARKS],
            mark_count: 0,
            settings: Settings::FRESH,
        }
    }

    // The held rules.
    pub fn rules(&self) -> &[Rule]
        requires { CountsIn self.now }
        ensures { result.now ≡ take self.now.rule_count self.now.rules }
    {
        &self.rules[..self.rule_count]
    }

    // The held marks.
    pub fn marks(&self) -> &[Mark]
        requires { CountsIn self.now }
        ensures { result.now ≡ take self.now.mark_count self.now.marks }
    {
        &self.marks[..self.mark_count]
    }

    // What the lists and settings keep: each rule and mark in range, few enough depths, none twice, settings that there are, no mark outside
    // the hole, and no rule that the profile does not admit. The ranges come first: the keys tell apart marks that are in range.
    pub fn within_limits(self) -> bool
        requires { CountsIn self }
        ensures { result ≡ limits (held_of self) }
    {
        let rules = self.rules();
        let marks = self.marks();
        let in_range = scans::rules_in_range(rules) & scans::marks_in_range(marks);
        if !in_range {
            return false;
        }
        let few = scans::depth_count(marks) <= DEPTHS;
        let once = scans::rules_once(rules) & scans::marks_once(marks);
        let inside = scans::marks_inside(marks, self.settings.hole);
        let admitted = scans::rules_admitted(rules, self.settings.profile);
        few & (once & (self.settings.in_range() & (inside & admitted)))
    }
}
