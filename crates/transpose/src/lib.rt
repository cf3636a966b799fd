// A square of 64 words of 64 bits, and its transpose.
#![tactic(auto)]

ghost use Rattle.std.specs.Prelude.{◌≡◌, ◌+◌, ◌%◌, ◌<◌, length};
ghost use Rattle.transpose.specs.Transposed.{side, Stage, Exchanged, Span, Swapped, Transposed};

// Two words of a square.
#[derive(Drop)]
pub struct Pair {
    pub u: u64,
    pub v: u64,
}

// The high side of `u` and the low side of `v` change places.
fn exchange(u: u64, v: u64, step: usize, mask: u64) -> Pair
    requires { Stage step mask }
    ensures { Exchanged step u v result }
{
    Pair {
        u: (u & mask) | ((v & mask) << step),
        v: ((u >> step) & mask) | (v ^ (v & mask)),
    }
}

// Exchanges words `k` and `k + step`.
fn pair_at(square: &mut [u64; 64], k: usize, step: usize, mask: u64)
    requires { Stage step mask × (k < 64) × (side step k ≡ 0) × (length square.old ≡ 64) }
    ensures { Span step square.old k (k + 1) square.new }
{
    let r = exchange(square[k], square[k + step], step, mask);
    square[k] = r.u;
    square[k + step] = r.v;
}

// Exchanges the pairs of one block: each word of the run from `base` on with one of the run behind it.
fn block_pairs(square: &mut [u64; 64], base: usize, step: usize, mask: u64)
    requires { Stage step mask × (base < 64) × (base % (step + step) ≡ 0) × (length square.old ≡ 64) }
    ensures { Span step square.old base (base + (step + step)) square.new }
{
    for k in 0..step {
        pair_at(square, base + k, step, mask);
    }
}

// Exchanges all pairs of one step, run by run: the inner loop has no branch.
fn stage(square: &mut [u64; 64], step: usize, mask: u64)
    requires { Stage step mask × (length square.old ≡ 64) }
    ensures { Swapped step square.old square.new }
{
    for base in (0..64).step_by(step + step) {
        block_pairs(square, base, step, mask);
    }
}

// Transposes a square: by halves, then quarters, down to single bits.
pub fn transpose(square: &mut [u64; 64])
    requires { length square.old ≡ 64 }
    ensures { Transposed square.old square.new }
{
    stage(square, 32, 0x0000_0000_ffff_ffff);
    stage(square, 16, 0x0000_ffff_0000_ffff);
    stage(square, 8, 0x00ff_00ff_00ff_00ff);
    stage(square, 4, 0x0f0f_0f0f_0f0f_0f0f);
    stage(square, 2, 0x3333_3333_3333_3333);
    stage(square, 1, 0x5555_5555_5555_5555);
}
