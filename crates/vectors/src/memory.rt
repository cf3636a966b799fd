// The memory that a script is run on, filled and summed whole.
ghost use Rattle.std.specs.Prelude.{◌≡◌, ◌<◌, false, ltb};

pub const BLOCK_ROOM: usize = 5120;

pub const LABEL_ROOM: usize = 3200;

pub const LINK_ROOM: usize = 50000;

pub const SPAN_ROOM: usize = 256;

// The largest prime below 2 to the 32.
pub const MODULUS: u64 = 4294967291;

#[derive(Drop)]
pub struct Memory {
    pub block: [u8; BLOCK_ROOM],
    pub labels: [u64; LABEL_ROOM],
    pub links: [u8; LINK_ROOM],
    pub spans: [i32; SPAN_ROOM],
}

// A checksum of each memory.
#[derive(Drop)]
pub struct Checksums {
    pub block: u64,
    pub labels: u64,
    pub links: u64,
    pub spans: u64,
}

impl Memory {
    // Fills the memory of a number; false where there is none, and nothing is filled then.
    pub fn fill(&mut self, which: u8, seed: u8) -> bool
        ensures there { result ≡ ltb which 4 }
        ensures kept { result ≡ false → self.new ≡ self.old }
    {
        match which {
            0 => fill(&mut self.block, seed),
            1 => fill(&mut self.labels, seed),
            2 => fill(&mut self.links, seed),
            3 => fill(&mut self.spans, seed),
            _ => return false,
        }
        true
    }

    pub fn sums(&self) -> Checksums
        ensures { (result.block < MODULUS) × (result.labels < MODULUS) × (result.links < MODULUS) × (result.spans < MODULUS) }
    {
        Checksums {
            block: sum(&self.block, u64::from),
            labels: sum(&self.labels, |number| number),
            links: sum(&self.links, u64::from),
            spans: sum(&self.spans, |depth| u64::from(depth.cast_unsigned())),
        }
    }
}

// Element i is (i + seed) mod 256, or 0 where the seed is 0.
fn element(i: usize, seed: u8) -> u8 {
    if seed == 0 {
        return 0;
    }
    ((i % 256 + usize::from(seed)) % 256) as u8
}

fn fill<T: From<u8> + Copy>(elements: &mut [T], seed: u8) {
    for (i, place) in elements.iter_mut().enumerate() {
        *place = T::from(element(i, seed));
    }
}

// The checksum with one number more.
fn mix(sum: u64, number: u64) -> u64
    requires { sum < MODULUS }
    ensures { result < MODULUS }
{
    (sum * 31 + number % MODULUS) % MODULUS
}

fn sum<T: Copy, F: Fn(T) -> u64>(elements: &[T], number: F) -> u64
    requires { F.IsAlwaysCallable number }
    ensures { result < MODULUS }
{
    let mut sum = 0;
    for element in elements {
        sum = mix(sum, number(*element));
    }
    sum
}
