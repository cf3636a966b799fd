// Bits of a 64-bit word.
#![tactic(auto)]

ghost use Rattle.std.specs.Prelude.{◌≡◌, ◌<◌};
ghost use Rattle.words.specs.Bit.{bit_at, Ones, LowestBit, Length};

// Bit `k` of `x`: 0 or 1.
pub fn bit(x: u64, k: usize) -> u64
    requires { k < 64 }
    ensures { result ≡ bit_at x k }
{
    (x >> k) & 1
}

// The `n` lowest bits, all where `n` is 64 or more.
pub fn ones(n: usize) -> u64
    ensures { Ones n result }
{
    if n < 64 {
        return (1 << n) - 1;
    }
    u64::MAX
}

// The lowest set bit.
pub fn lowest(x: u64) -> usize
    requires { 0 < x }
    ensures { LowestBit x result }
{
    x.trailing_zeros() as usize
}

// One more than the highest set bit, and 0 of 0.
pub fn length(x: u64) -> usize
    ensures { Length x result }
{
    64 - x.leading_zeros() as usize
}
