// What is read off the lent tables.
#![tactic(auto)]

ghost use Rattle.std.specs.Prelude.{◌≡◌, ◌<◌, ◌≤◌, T, length};
ghost use Rattle.terms.specs.Held.{is_statement};
ghost use Rattle.terms.specs.Limits.{ITEMS, INTERVALS, LABEL_ENTRIES, LINK_ENTRIES};
ghost use Rattle.verdicts.specs.Reading.{never_in, listed, clashes_in, clash_in, holds_in};

use terms::{Atom, INTERVALS, ITEMS, NEVER};

// How many items there are, and the bit of NEVER, as places.
const ITEM_PLACES: usize = ITEMS as usize;

const NEVER_BIT: usize = NEVER as usize;

// That the tables are long enough stands in each contract: they come as bare slices from the C interface.

// Whether the item has NEVER somewhere.
fn has_never(labels: &[u64], item: usize) -> bool
    requires { (LABEL_ENTRIES ≤ length labels.now) × (item < ITEMS) }
    ensures { result ≡ never_in labels.now item }
{
    let entries = &labels[item * INTERVALS..(item + 1) * INTERVALS];
    entries
        .iter()
        .any(|entry| words::bit(*entry, NEVER_BIT) == 1)
}

// Whether the item is concerned and has NEVER somewhere.
fn clashes(labels: &[u64], concerned: [bool; ITEM_PLACES], item: usize) -> bool
    requires { (LABEL_ENTRIES ≤ length labels.now) × (item < ITEMS) }
    ensures { result ≡ clashes_in (listed concerned) labels.now item }
{
    concerned[item] && has_never(labels, item)
}

// What the tables clash at, if at all: the lowest item with NEVER of those concerned.
pub fn clash_in(labels: &[u64], concerned: [bool; ITEM_PLACES]) -> Option<u8>
    requires { (LABEL_ENTRIES ≤ length labels.now) }
    ensures { result ≡ clash_in (listed concerned) labels.now }
{
    (0..ITEMS).find(|item| clashes(labels, concerned, usize::from(*item)))
}

// Whether the tables have the statement at the interval.
pub fn holds(labels: &[u64], links: &[u8], atom: Atom, p: usize) -> bool
    requires { (LABEL_ENTRIES ≤ length labels.now) × (LINK_ENTRIES ≤ length links.now) × T (is_statement atom) × (p < INTERVALS) }
    ensures { result ≡ holds_in labels.now links.now atom p }
{
    match atom {
        Atom::Has(item, label) => spans::has_label(
            labels,
            usize::from(item),
            usize::from(label),
            p,
        ),
        Atom::Linked(from, kind, to) => {
            let at = (usize::from(from) * ITEM_PLACES + usize::from(to)) * INTERVALS + p;
            words::bit(u64::from(links[at]), usize::from(kind)) == 1
        }
    }
}
