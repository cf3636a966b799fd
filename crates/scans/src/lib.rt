// Scans of rules and marks, by keys.
#![tactic(auto)]

ghost use Rattle.std.specs.Prelude.{◌≡◌, ◌*◌, ◌≤◌, T, length, take};
ghost use Rattle.terms.specs.Holes.{lies_in};
ghost use Rattle.terms.specs.Profiles.{admits};
ghost use Rattle.terms.specs.Held.{is_rule, is_mark, ends_of};
ghost use Rattle.terms.specs.Places.{MarksNamed};
ghost use Rattle.terms.specs.Same.{same_rule, same_mark};
ghost use Rattle.terms.specs.Lists.{some, every, once, depth_count};
ghost use Rattle.keys.specs.Search.{position_of};
ghost use Rattle.scans.specs.Keys.{packed_fields, rule_key, mark_key, depth_key, atom_number, end_number, ByteRule, DepthFits, KeyOf, KeysOf, Paired};

use terms::{Atom, Hole, MARKS, Mark, Profile, RULES, Rule};

// Room for atoms and for ends in a mark's key.
const ATOM_ROOM: u64 = 4_096;

const END_ROOM: u64 = 262_144;

// Five fields in one number.
fn pack(tag: u8, first: u8, second: u8, third: u8, n: u32) -> u64
    ensures { result ≡ packed_fields tag first second third n }
{
    u64::from(tag)
        + 256
            * (u64::from(first)
                + 256 * (u64::from(second) + 256 * (u64::from(third) + 256 * u64::from(n))))
}

// A rule as one number: a slice of numbers can be lent to the searches, and one comparison tells two rules apart.
fn rule_key(rule: Rule) -> u64
    ensures { KeyOf rule_key ByteRule rule result }
{
    match rule {
        Rule::Label(operator, a, b) => pack(2 + 8 * operator.code(), a, b, 0, operator.distance()),
        Rule::Both(a, b, c) => pack(19, a, b, c, 0),
        Rule::Link(operator, r, s) => pack(4 + 8 * operator.code(), r, s, 0, operator.distance()),
        Rule::Via(r, a, b) => pack(21, r, a, b, 0),
    }
}

// An atom as a number, which no other atom in range has.
fn atom_number(atom: Atom) -> u16
    ensures { result ≡ atom_number atom }
{
    match atom {
        Atom::Has(item, label) => u16::from(item) + 16 * u16::from(label),
        Atom::Linked(from, kind, to) => {
            1_024 + (u16::from(from) + 16 * (u16::from(kind) + 8 * u16::from(to)))
        }
    }
}

// An end's lowest bits, which no other depth where marks lie has.
fn end_number(depth: i32) -> u64
    ensures { result ≡ end_number depth }
{
    u64::from(codec::bits32(depth)) % END_ROOM
}

// A mark as one number.
fn mark_key(mark: Mark) -> u64
    ensures { result ≡ mark_key mark }
{
    let number = u64::from(atom_number(mark.atom));
    number + ATOM_ROOM * (end_number(mark.top) + END_ROOM * end_number(mark.bottom))
}

// A depth as one number, whatever it is.
fn depth_key(depth: i32) -> u64
    ensures { KeyOf depth_key DepthFits depth result }
{
    u64::from(codec::bits32(depth))
}

// The keys of the items, from the front.
fn keys_of<T: Copy, F: Fn(T) -> u64>(items: &[T], keys: &mut [u64], key: F)
    requires room { length items.now ≤ length keys.old }
    requires callable { F.IsAlwaysCallable key }
    ensures { Paired (λ x k. F.post key x k) items.now (take (length items.now) keys.new) }
{
    for (i, item) in items.iter().enumerate() {
        keys[i] = key(*item);
    }
}

// The keys of both ends of each mark, the top before the bottom.
fn depth_keys(marks: &[Mark]) -> [u64; 2 * MARKS]
    requires { length marks.now ≤ 256 }
    ensures { KeysOf depth_key DepthFits (ends_of marks.now) (take (2 * length marks.now) result) }
{
    let mut keys = [0; 2 * MARKS];
    for (i, mark) in marks.iter().enumerate() {
        keys[2 * i] = depth_key(mark.top);
        keys[2 * i + 1] = depth_key(mark.bottom);
    }
    keys
}

pub fn has_rule(rules: &[Rule], rule: Rule) -> bool
    ensures { result ≡ some (same_rule rule) rules.now }
{
    let key = rule_key(rule);
    rules.iter().any(|held| key == rule_key(*held))
}

// The place of the same mark.
pub fn mark_index(marks: &[Mark], mark: Mark) -> Option<usize>
    requires marks_named { MarksNamed marks.now }
    requires t { T (is_mark mark) }
    ensures { result ≡ position_of (same_mark mark) marks.now }
{
    let key = mark_key(mark);
    marks.iter().position(|held| key == mark_key(*held))
}

// How many depths are an end of some mark.
pub fn depth_count(marks: &[Mark]) -> usize
    requires { length marks.now ≤ 256 }
    ensures { result ≡ depth_count (ends_of marks.now) }
{
    let keys = depth_keys(marks);
    keys::distinct_keys(&keys[..2 * marks.len()])
}

pub fn rules_once(rules: &[Rule]) -> bool
    requires { length rules.now ≤ 128 }
    ensures { result ≡ once same_rule rules.now }
{
    let mut keys = [0; RULES];
    keys_of(rules, &mut keys, rule_key);
    keys::once_keys(&keys[..rules.len()])
}

pub fn marks_once(marks: &[Mark]) -> bool
    requires { MarksNamed marks.now }
    ensures { result ≡ once same_mark marks.now }
{
    let mut keys = [0; MARKS];
    keys_of(marks, &mut keys, mark_key);
    keys::once_keys(&keys[..marks.len()])
}

pub fn rules_in_range(rules: &[Rule]) -> bool
    ensures { result ≡ every is_rule rules.now }
{
    rules.iter().all(|rule| rule.in_range())
}

pub fn marks_in_range(marks: &[Mark]) -> bool
    ensures { result ≡ every is_mark marks.now }
{
    marks.iter().all(|mark| mark.in_range())
}

// Each may be held under the profile.
pub fn rules_admitted(rules: &[Rule], profile: Profile) -> bool
    ensures { result ≡ every (admits profile) rules.now }
{
    rules.iter().all(|rule| profile::admits(profile, *rule))
}

// None reaches outside the hole.
pub fn marks_inside(marks: &[Mark], hole: Hole) -> bool
    ensures { result ≡ every (lies_in hole) marks.now }
{
    marks.iter().all(|mark| mark.lies_in(hole))
}
