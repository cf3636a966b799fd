// The bytes of a place of the state block, of a rule, a mark and the settings: read and written.
#![tactic(auto)]

ghost use Rattle.std.specs.Prelude.{◌≡◌, ◌++◌, ◌+◌, ◌≤◌, length};
ghost use Rattle.codec.specs.Bytes.{bytes, bytes_of_signed32, put};
ghost use Rattle.places.specs.Layout.{counting_byte, profile_byte, settings_bytes, rule_bytes, mark_bytes, SETTINGS_AT, SIZE};
ghost use Rattle.places.specs.Read.{counting_from, hole_from, profile_from, settings_at, rule_of, rule_read, mark_of, mark_read};

use terms::{Atom, Counting, Hole, Mark, Operator, Profile, Rule, Settings};

const SETTINGS_AT: usize = 4;

// The fields one by one, as the definition has them. What no operator is stored as is read as WITHIN 1; the comparison in `block::load` finds it.
#[tactic(auto, unfolding(crate::specs::Read::rule_of))]
fn rule_of(kind: u8, a: u8, b: u8, c: u8, n: u32) -> Rule
    ensures { result ≡ rule_of kind a b c n }
{
    match kind {
        2 => Rule::Label(Operator::new(a, n).unwrap_or(Operator::WITHIN_1), b, c),
        3 => Rule::Both(a, b, c),
        4 => Rule::Link(Operator::new(a, n).unwrap_or(Operator::WITHIN_1), b, c),
        _ => Rule::Via(a, b, c),
    }
}

pub fn rule_at(b: &[u8], at: usize) -> Rule
    requires { at + 8 ≤ length b.now }
    ensures { result ≡ rule_read b.now at }
{
    rule_of(
        b[at],
        b[at + 1],
        b[at + 2],
        b[at + 3],
        codec::u32_at(b, at + 4),
    )
}

fn mark_of(kind: u8, a: u8, b: u8, c: u8, top: i32, bottom: i32) -> Mark
    ensures { result ≡ mark_of kind a b c top bottom }
{
    let atom = if kind == 6 {
        Atom::Has(a, b)
    } else {
        Atom::Linked(a, b, c)
    };
    Mark { atom, top, bottom }
}

pub fn mark_at(b: &[u8], at: usize) -> Mark
    requires { at + 12 ≤ length b.now }
    ensures { result ≡ mark_read b.now at }
{
    let top = codec::i32_at(b, at + 4);
    let bottom = codec::i32_at(b, at + 8);
    mark_of(b[at], b[at + 1], b[at + 2], b[at + 3], top, bottom)
}

// A rule's place: its kind and three fields, and n.
fn put_rule_place(s: &mut [u8], at: usize, fields: [u8; 4], n: u32)
    requires { at + 8 ≤ length s.old }
    ensures { s.new ≡ put s.old at (fields ++ bytes 4 n) }
{
    codec::put_bytes(s, at, &fields);
    codec::put_u32(s, at + 4, n);
}

#[tactic(auto, unfolding(crate::specs::Layout::place_bytes))]
pub fn put_rule(b: &mut [u8], at: usize, rule: Rule)
    requires { at + 8 ≤ length b.old }
    ensures { b.new ≡ put b.old at (rule_bytes rule) }
{
    match rule {
        Rule::Label(o, left, label) => put_rule_place(
            b,
            at,
            [2, o.code(), left, label],
            o.distance(),
        ),
        Rule::Both(left, right, label) => put_rule_place(b, at, [3, left, right, label], 0),
        Rule::Link(o, left, kind) => put_rule_place(b, at, [4, o.code(), left, kind], o.distance()),
        Rule::Via(kind, left, label) => put_rule_place(b, at, [5, kind, left, label], 0),
    }
}

// Four bytes and two depths.
fn put_ends(s: &mut [u8], at: usize, fields: [u8; 4], top: i32, bottom: i32)
    requires { at + 12 ≤ length s.old }
    ensures { s.new ≡ put s.old at (fields ++ (bytes_of_signed32 top ++ bytes_of_signed32 bottom)) }
{
    codec::put_bytes(s, at, &fields);
    codec::put_i32(s, at + 4, top);
    codec::put_i32(s, at + 8, bottom);
}

#[tactic(auto, unfolding(crate::specs::Layout::ends_bytes))]
pub fn put_mark(b: &mut [u8], at: usize, mark: Mark)
    requires { at + 12 ≤ length b.old }
    ensures { b.new ≡ put b.old at (mark_bytes mark) }
{
    match mark.atom {
        Atom::Has(item, label) => put_ends(b, at, [6, item, label, 0], mark.top, mark.bottom),
        Atom::Linked(from, kind, to) => put_ends(b, at, [7, from, kind, to], mark.top, mark.bottom),
    }
}

// These two and `profile_byte` with `profile_from` stay apart: a trait for both enums would have more lines than the four of them.
fn counting_byte(counting: Counting) -> u8
    ensures { result ≡ counting_byte counting }
{
    match counting {
        Counting::Old => 0,
        Counting::New => 1,
    }
}

// What no counting is stored as is read as the new one; the comparison in `block::load` finds it.
fn counting_from(byte: u8) -> Counting
    ensures { result ≡ counting_from byte }
{
    if byte == 0 {
        return Counting::Old;
    }
    Counting::New
}

// What no hole is stored as is read as one; the comparison in `block::load` finds it.
fn hole_from(byte: u8, top: i32, bottom: i32) -> Hole
    ensures { result ≡ hole_from byte top bottom }
{
    if byte == 0 {
        return Hole::Whole;
    }
    Hole::Part(top, bottom)
}

fn profile_byte(profile: Profile) -> u8
    ensures { result ≡ profile_byte profile }
{
    match profile {
        Profile::Off => 0,
        Profile::On => 1,
    }
}

// What no profile is stored as is read as one that is on; the comparison in `block::load` finds it.
fn profile_from(byte: u8) -> Profile
    ensures { result ≡ profile_from byte }
{
    if byte == 0 {
        return Profile::Off;
    }
    Profile::On
}

pub fn put_settings(b: &mut [u8], settings: Settings)
    requires { SIZE ≤ length b.old }
    ensures { b.new ≡ put b.old SETTINGS_AT (settings_bytes settings) }
{
    let count = counting_byte(settings.counting);
    let print = profile_byte(settings.profile);
    match settings.hole {
        Hole::Whole => put_ends(b, SETTINGS_AT, [count, print, 0, 0], 0, 0),
        Hole::Part(top, bottom) => put_ends(b, SETTINGS_AT, [count, print, 1, 0], top, bottom),
    }
}

pub fn settings_at(b: &[u8]) -> Settings
    requires { SIZE ≤ length b.now }
    ensures { result ≡ settings_at b.now }
{
    let top = codec::i32_at(b, SETTINGS_AT + 4);
    let bottom = codec::i32_at(b, SETTINGS_AT + 8);
    Settings {
        counting: counting_from(b[SETTINGS_AT]),
        hole: hole_from(b[SETTINGS_AT + 2], top, bottom),
        profile: profile_from(b[SETTINGS_AT + 1]),
    }
}
