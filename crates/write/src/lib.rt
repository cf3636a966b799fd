// The lent tables, written from one store of rows. Rows are sets of intervals and entries are sets of
// labels or link kinds, so squares of bits are transposed: 64 entries come from 64 words at a time.
#![tactic(auto)]

ghost use Rattle.std.specs.Prelude.{◌≡◌, ◌+◌, ◌*◌, ◌<◌, ◌≤◌, length};
ghost use Rattle.terms.specs.Limits.{LABELS, KINDS, INTERVALS, LABEL_ENTRIES, LINK_ENTRIES};
ghost use Rattle.store.specs.Numbers.{LINK_ROWS, STORE_WORDS};
ghost use Rattle.write.specs.Written.{LabelsWritten, LinksWritten};
ghost use Rattle.write.specs.Parts.{Square, Columns, Laid, words_of, bytes_of, zero_at, Part, Unused};

use store::{ITEMS, KINDS, LABELS, LINK_ROWS, PAIRS};
use terms::INTERVALS;

// The words of the rows of a pair.
const PAIR_WORDS: usize = KINDS * 4;

// Word `w` of each of the `count` rows from `start` on, and zeros behind.
fn square_of(rows: &[u64], start: usize, w: usize, count: usize) -> [u64; 64]
    requires { (start * 4 + count * 4 ≤ length rows.now) × (w < 4) × (count ≤ 64) }
    ensures { Square rows.now start w count result }
{
    let mut square = [0u64; 64];
    let base = start * 4 + w;
    for k in 0..count {
        square[k] = rows[base + k * 4];
    }
    square
}

// The entries of the 64 intervals from w * 64 on, from the `count` rows from `start` on.
fn transposed(rows: &[u64], start: usize, w: usize, count: usize) -> [u64; 64]
    requires { (start * 4 + count * 4 ≤ length rows.now) × (w < 4) × (count ≤ 64) }
    ensures { Columns rows.now start w count result }
{
    let mut square = square_of(rows, start, w, count);
    transpose::transpose(&mut square);
    square
}

// Copies `count` words of a square to the entries from `base` on.
fn lay_words(labels: &mut [u64], base: usize, square: &[u64; 64], count: usize)
    requires { (base + count ≤ length labels.old) × (count ≤ 64) × (length square.now ≡ 64) }
    ensures { Laid (words_of square.now) base count labels.old labels.new }
{
    labels[base..base + count].copy_from_slice(&square[..count]);
}

// Copies the lowest byte of `count` words of a square to the bytes from `base` on.
fn lay_bytes(links: &mut [u8], base: usize, square: &[u64; 64], count: usize)
    requires { (base + count ≤ length links.old) × (count ≤ 64) × (length square.now ≡ 64) }
    ensures { Laid (bytes_of square.now) base count links.old links.new }
{
    for k in 0..count {
        links[base + k] = (square[k] % 256) as u8;
    }
}

// Clears the bytes of a pair, from `base` on.
fn clear(links: &mut [u8], base: usize)
    requires { base + INTERVALS ≤ length links.old }
    ensures { Laid zero_at base INTERVALS links.old links.new }
{
    links[base..base + INTERVALS].fill(0);
}

// The first `count` of the 64 entries of an item that word `w` of its rows has.
fn item_part(labels: &mut [u64], rows: &[u64], item: usize, w: usize, count: usize)
    requires { ((item * LABELS + LABELS) * 4 ≤ length rows.now) × (item * INTERVALS + w * 64 + count ≤ length labels.old) × (w < 4) × (count ≤ 64) }
    ensures { Part rows.now (item * LABELS) LABELS (item * INTERVALS) (w * 64) (w * 64 + count) labels.old labels.new }
{
    let square = transposed(rows, item * LABELS, w, LABELS);
    lay_words(labels, item * INTERVALS + w * 64, &square, count);
}

// The entries of an item.
fn write_item(labels: &mut [u64], rows: &[u64], item: usize)
    requires { ((item * LABELS + LABELS) * 4 ≤ length rows.now) × (item * INTERVALS + INTERVALS ≤ length labels.old) }
    ensures { Part rows.now (item * LABELS) LABELS (item * INTERVALS) 0 INTERVALS labels.old labels.new }
{
    item_part(labels, rows, item, 0, 64);
    item_part(labels, rows, item, 1, 64);
    item_part(labels, rows, item, 2, 64);
    item_part(labels, rows, item, 3, 1);
}

// Writes the label table: entry item * INTERVALS + interval, bit `label`, from row item * LABELS + label.
pub fn write_labels(labels: &mut [u64], rows: &[u64])
    requires { (STORE_WORDS ≤ length rows.now) × (LABEL_ENTRIES ≤ length labels.old) }
    ensures { LabelsWritten rows.now labels.old labels.new }
{
    for item in 0..ITEMS {
        write_item(labels, rows, item);
    }
}

// True where the rows of a pair, from `start` on, are empty.
fn unused(rows: &[u64], start: usize) -> bool
    requires { start * 4 + KINDS * 4 ≤ length rows.now }
    ensures { Unused rows.now start result }
{
    let base = start * 4;
    let any = rows[base..base + PAIR_WORDS]
        .iter()
        .fold(0, |any, word| any | *word);
    any == 0
}

// The first `count` of the 64 bytes of a pair that word `w` of its rows has. One function for both tables would be no plainer: words
// are copied and bytes cut out, and its contract would state both through a view of the entry.
fn pair_part(links: &mut [u8], rows: &[u64], pair: usize, w: usize, count: usize)
    requires { ((LINK_ROWS + pair * KINDS + KINDS) * 4 ≤ length rows.now) × (pair * INTERVALS + w * 64 + count ≤ length links.old)
        × (w < 4) × (count ≤ 64) }
    ensures { Part rows.now (LINK_ROWS + pair * KINDS) KINDS (pair * INTERVALS) (w * 64) (w * 64 + count)
        links.old links.new }
{
    let square = transposed(rows, LINK_ROWS + pair * KINDS, w, KINDS);
    lay_bytes(links, pair * INTERVALS + w * 64, &square, count);
}

// The bytes of a pair.
fn write_pair(links: &mut [u8], rows: &[u64], pair: usize)
    requires { ((LINK_ROWS + pair * KINDS + KINDS) * 4 ≤ length rows.now) × (pair * INTERVALS + INTERVALS ≤ length links.old) }
    ensures { Part rows.now (LINK_ROWS + pair * KINDS) KINDS (pair * INTERVALS) 0 INTERVALS links.old links.new }
{
    if unused(rows, LINK_ROWS + pair * KINDS) {
        clear(links, pair * INTERVALS);
        return;
    }
    pair_part(links, rows, pair, 0, 64);
    pair_part(links, rows, pair, 1, 64);
    pair_part(links, rows, pair, 2, 64);
    pair_part(links, rows, pair, 3, 1);
}

// Writes the link table: byte pair * INTERVALS + interval, bit `kind`, from row LINK_ROWS + pair * KINDS + kind.
pub fn write_links(links: &mut [u8], rows: &[u64])
    requires { (STORE_WORDS ≤ length rows.now) × (LINK_ENTRIES ≤ length links.old) }
    ensures { LinksWritten rows.now links.old links.new }
{
    for pair in 0..PAIRS {
        write_pair(links, rows, pair);
    }
}
