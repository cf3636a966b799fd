// Little-endian numbers in slices of bytes: what `specs/Bytes.antt` says, read and written.
#![tactic(auto)]

ghost use Rattle.std.specs.Prelude.{◌≡◌, ◌+◌, ◌≤◌, length, take, drop};
ghost use Rattle.std.specs.Int.{w32};
ghost use Rattle.std.proofs.Common.{of_z};
ghost use Rattle.codec.specs.Bytes.{little, bytes, signed32_at, signed64_at, bytes_of_signed32, put};

// The bytes from `at` on.
fn bytes_at<const N: usize>(s: &[u8], at: usize) -> [u8; N]
    requires { at + N ≤ length s.now }
    ensures { result ≡ take N (drop at s.now) }
{
    let mut part = [0; N];
    part.copy_from_slice(&s[at..at + N]);
    part
}

// The number in the bytes from `at` on, lowest first. Each width by a name of its own: a trait over them has more lines than they have.
pub fn u16_at(s: &[u8], at: usize) -> u16
    requires { at + 2 ≤ length s.now }
    ensures { result ≡ little 2 s.now at }
{
    u16::from_le_bytes(bytes_at(s, at))
}

pub fn u32_at(s: &[u8], at: usize) -> u32
    requires { at + 4 ≤ length s.now }
    ensures { result ≡ little 4 s.now at }
{
    u32::from_le_bytes(bytes_at(s, at))
}

pub fn u64_at(s: &[u8], at: usize) -> u64
    requires { at + 8 ≤ length s.now }
    ensures { result ≡ little 8 s.now at }
{
    u64::from_le_bytes(bytes_at(s, at))
}

// The signed number in the bytes from `at` on.
pub fn i32_at(s: &[u8], at: usize) -> i32
    requires { at + 4 ≤ length s.now }
    ensures { result ≡ signed32_at s.now at }
{
    u32_at(s, at).cast_signed()
}

pub fn i64_at(s: &[u8], at: usize) -> i64
    requires { at + 8 ≤ length s.now }
    ensures { result ≡ signed64_at s.now at }
{
    u64_at(s, at).cast_signed()
}

// A signed number's bits, two's complement.
pub fn bits32(z: i32) -> u32
    ensures { result ≡ of_z w32 z }
{
    z.cast_unsigned()
}

// Lays the bytes from `at` on; the rest stays.
pub fn put_bytes(s: &mut [u8], at: usize, part: &[u8])
    requires { at + length part.now ≤ length s.old }
    ensures { s.new ≡ put s.old at part.now }
{
    s[at..at + part.len()].copy_from_slice(part);
}

// Lays the number's bytes from `at` on, lowest first.
pub fn put_u16(s: &mut [u8], at: usize, x: u16)
    requires { at + 2 ≤ length s.old }
    ensures { s.new ≡ put s.old at (bytes 2 x) }
{
    put_bytes(s, at, &u16::to_le_bytes(x))
}

pub fn put_u32(s: &mut [u8], at: usize, x: u32)
    requires { at + 4 ≤ length s.old }
    ensures { s.new ≡ put s.old at (bytes 4 x) }
{
    put_bytes(s, at, &u32::to_le_bytes(x))
}

pub fn put_i32(s: &mut [u8], at: usize, z: i32)
    requires { at + 4 ≤ length s.old }
    ensures { s.new ≡ put s.old at (bytes_of_signed32 z) }
{
    put_u32(s, at, bits32(z))
}
