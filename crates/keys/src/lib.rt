// Keys, one number for each thing: how many are distinct.
#![tactic(auto)]

ghost use Rattle.std.specs.Prelude.{◌≡◌, ◌+◌, ◌≤◌, ◌<◌, eqb, length, drop};
ghost use Rattle.terms.specs.Lists.{some, once};
ghost use Rattle.keys.specs.Search.{distinct};
ghost use Rattle.keys.specs.Slots.{slot_of, Said, Slots, LastOf};

// How many slots the search for equal keys has: a prime, so that each bit of a key tells.
const SLOTS: usize = 3967;

fn slot_of(key: u64) -> usize
    ensures { result ≡ slot_of key }
{
    key as usize % SLOTS
}

// The key is at some place from `from` on. Its slot mostly tells; where that says the place of another key they are searched.
fn is_met(keys: &[u64], said: usize, from: usize, key: u64) -> bool
    requires said { Said keys.now from key said }
    requires from_in_bounds { from ≤ length keys.now }
    ensures { result ≡ some (eqb key) (drop from keys.now) }
{
    said != 0 && (keys[said] == key || keys[from..].contains(&key))
}

// No key behind the place is the same as its own. Its slot says the place then.
fn is_last(keys: &[u64], slots: &mut [u16; SLOTS], at: usize) -> bool
    requires slots { Slots keys.now (at + 1) slots.old }
    requires at_in_bounds { at < length keys.now }
    requires keys_len_bound { length keys.now ≤ 512 }
    ensures { LastOf keys.now at slots.new result }
{
    let key = keys[at];
    let slot = slot_of(key);
    let said = usize::from(slots[slot]);
    slots[slot] = at as u16;
    !is_met(keys, said, at + 1, key)
}

// From the last key on, so that the slots say places behind the one in hand: never 0, which is a free slot.
pub fn distinct_keys(keys: &[u64]) -> usize
    requires { length keys.now ≤ 512 }
    ensures { result ≡ distinct keys.now }
{
    let mut slots = [0; SLOTS];
    let mut count = 0;
    for at in (0..keys.len()).rev() {
        count += usize::from(is_last(keys, &mut slots, at));
    }
    count
}

// No two keys are the same: as many are distinct as there are.
pub fn once_keys(keys: &[u64]) -> bool
    requires { length keys.now ≤ 512 }
    ensures { result ≡ once eqb keys.now }
{
    distinct_keys(keys) == keys.len()
}
