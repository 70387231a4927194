// How the programs compare bytes: a checksum that stands for them, and how far two arrays of them agree.
#![tactic(auto)]

ghost use Rattle.std.specs.Prelude.{◌≡◌, ◌<◌, ◌^◌};
ghost use Rattle.comparison.specs.Bytes.{checksum_step, checksum, agreeing};

// The checksum of some bytes and one more.
#[tactic(auto, unfolding(crate::specs::Bytes::checksum_step))]
fn checksum_step(sum: u32, byte: u8) -> u32
    ensures { result ≡ checksum_step sum byte }
{
    ((u64::from(sum) * 1000003 + u64::from(byte) + 1) % 4294967291) as u32
}

// The checksum of bytes: from 0 on, each byte b makes of it checksum * 1000003 + b + 1, modulo 4294967291.
#[tactic(auto, using(crate::proofs::Sums::summed))]
pub fn checksum(bytes: &[u8]) -> usize
    ensures value { result ≡ checksum bytes.now }
    ensures upper_bound { result < 2 ^ 32 }
{
    bytes.iter().fold(0, |sum, byte| checksum_step(sum, *byte)) as usize
}

// How many of the first k bytes are the same in both, up to the first that differs.
pub fn agreeing(a: &[u8], b: &[u8], k: usize) -> usize
    ensures { result ≡ agreeing a.now b.now k }
{
    (0..k)
        .find(|i| arrays::at(a, *i) != arrays::at(b, *i))
        .unwrap_or(k)
}
