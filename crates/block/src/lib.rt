// The state block: loaded into a state and stored from one.
#![tactic(auto)]

ghost use Rattle.std.specs.Prelude.{◌≡◌, ℕ, ◌++◌, ◌≤◌, ◌<◌, length, take, drop};
ghost use Rattle.codec.specs.Bytes.{put};
ghost use Rattle.terms.specs.Limits.{RULES, MARKS};
ghost use Rattle.state.specs.State.{CountsIn, held_of};
ghost use Rattle.places.specs.Layout.{rule_bytes, mark_bytes, cat, zeros, HEADER, MARKS_AT, SIZE, encode};
ghost use Rattle.block.specs.Block.{same_bytes, LoadedAs};
ghost use Rattle.block.specs.Places.{ReadBy};

use state::State;
use terms::{MARKS, Mark, RULES, Rule};

pub const SIZE: usize = MARKS_AT + MARKS * MARK_BYTES;

const HEADER: usize = 32;

const RULE_BYTES: usize = 8;

const MARK_BYTES: usize = 12;

const MARKS_AT: usize = HEADER + RULES * RULE_BYTES;

// A free place is zero bytes.
fn clear(b: &mut [u8])
    requires { SIZE ≤ length b.old }
    ensures { b.new ≡ zeros SIZE ++ drop SIZE b.old }
{
    b[..SIZE].fill(0);
}

// This and `store_marks` stay apart: one function would take a closure that writes to what is lent, and its contract is longer than both.
fn store_rules(b: &mut [u8], rules: &[Rule])
    requires { (length rules.now ≤ RULES) × (SIZE ≤ length b.old) }
    ensures { b.new ≡ put b.old HEADER (cat rule_bytes rules.now) }
{
    for (i, rule) in rules.iter().enumerate() {
        places::put_rule(b, HEADER + RULE_BYTES * i, *rule);
    }
}

fn store_marks(b: &mut [u8], marks: &[Mark])
    requires { (length marks.now ≤ MARKS) × (SIZE ≤ length b.old) }
    ensures { b.new ≡ put b.old MARKS_AT (cat mark_bytes marks.now) }
{
    for (i, mark) in marks.iter().enumerate() {
        places::put_mark(b, MARKS_AT + MARK_BYTES * i, *mark);
    }
}

// The first n places as they are read, the others empty.
fn filled<T: Copy, F: Fn(usize) -> T, const N: usize>(n: usize, empty: T, read: F) -> [T; N]
    requires few { n ≤ N }
    requires callable { (i : ℕ) → i < n → F.pre read i }
    ensures { ReadBy N n (λ i x. F.post read i x) result }
{
    let mut places = [empty; N];
    for i in 0..n {
        places[i] = read(i);
    }
    places
}

// The bytes behind the block stay as they are.
pub fn store(block: &mut [u8], state: State)
    requires { CountsIn state × (SIZE ≤ length block.old) }
    ensures { block.new ≡ encode (held_of state) ++ drop SIZE block.old }
{
    clear(block);
    codec::put_u16(block, 0, state.rule_count as u16);
    codec::put_u16(block, 2, state.mark_count as u16);
    places::put_settings(block, state.settings);
    store_rules(block, state.rules());
    store_marks(block, state.marks());
}

// Behind a call, so that no proof writes out the bytes.
fn blank() -> [u8; SIZE]
    ensures { SIZE ≡ length result }
{
    [0; SIZE]
}

// The block begins with the copy. No branch on a byte: so the whole is compared many bytes at a time.
fn is_copy(copy: &[u8], block: &[u8]) -> bool
    requires { (length copy.now ≡ SIZE) × (SIZE ≤ length block.now) }
    ensures { result ≡ same_bytes copy.now (take SIZE block.now) }
{
    let mut same = true;
    for (at, byte) in copy.iter().enumerate() {
        same &= *byte == block[at];
    }
    same
}

// A block is good where it is the encoding of what it holds: to store that again and compare tests every byte. None where it is not.
pub fn load(block: &[u8]) -> Option<State>
    requires { SIZE ≤ length block.now }
    ensures { LoadedAs block.now result }
{
    let rule_count = usize::from(codec::u16_at(block, 0));
    let mark_count = usize::from(codec::u16_at(block, 2));
    if RULES < rule_count {
        return None;
    }
    if MARKS < mark_count {
        return None;
    }
    let state = State {
        rules: filled(
            rule_count,
            Rule::EMPTY,
            |i| places::rule_at(block, HEADER + RULE_BYTES * i),
        ),
        rule_count,
        marks: filled(
            mark_count,
            Mark::EMPTY,
            |i| places::mark_at(block, MARKS_AT + MARK_BYTES * i),
        ),
        mark_count,
        settings: places::settings_at(block),
    };
    if !state.within_limits() {
        return None;
    }
    let mut copy = blank();
    store(&mut copy, state);
    if !is_copy(&copy, block) {
        return None;
    }
    Some(state)
}
