//! Sets of physical CPUs as the bits of a `u64`: bit `p` stands for pCPU `p`.

#![tactic(auto)]

ghost use Rattle.std.specs.Prelude.{◌≡◌};
ghost use Rattle.masks.specs.Masks.{permits, pcpu_bit, full_mask, clipped, lowest};

/// The bit of each pCPU that a word has: entry `p` is 2^p.
#[rattlefmt::skip]
static PCPU_BITS: [u64; 64] = [
    0x0000_0000_0000_0001, 0x0000_0000_0000_0002, 0x0000_0000_0000_0004, 0x0000_0000_0000_0008,
    0x0000_0000_0000_0010, 0x0000_0000_0000_0020, 0x0000_0000_0000_0040, 0x0000_0000_0000_0080,
    0x0000_0000_0000_0100, 0x0000_0000_0000_0200, 0x0000_0000_0000_0400, 0x0000_0000_0000_0800,
    0x0000_0000_0000_1000, 0x0000_0000_0000_2000, 0x0000_0000_0000_4000, 0x0000_0000_0000_8000,
    0x0000_0000_0001_0000, 0x0000_0000_0002_0000, 0x0000_0000_0004_0000, 0x0000_0000_0008_0000,
    0x0000_0000_0010_0000, 0x0000_0000_0020_0000, 0x0000_0000_0040_0000, 0x0000_0000_0080_0000,
    0x0000_0000_0100_0000, 0x0000_0000_0200_0000, 0x0000_0000_0400_0000, 0x0000_0000_0800_0000,
    0x0000_0000_1000_0000, 0x0000_0000_2000_0000, 0x0000_0000_4000_0000, 0x0000_0000_8000_0000,
    0x0000_0001_0000_0000, 0x0000_0002_0000_0000, 0x0000_0004_0000_0000, 0x0000_0008_0000_0000,
    0x0000_0010_0000_0000, 0x0000_0020_0000_0000, 0x0000_0040_0000_0000, 0x0000_0080_0000_0000,
    0x0000_0100_0000_0000, 0x0000_0200_0000_0000, 0x0000_0400_0000_0000, 0x0000_0800_0000_0000,
    0x0000_1000_0000_0000, 0x0000_2000_0000_0000, 0x0000_4000_0000_0000, 0x0000_8000_0000_0000,
    0x0001_0000_0000_0000, 0x0002_0000_0000_0000, 0x0004_0000_0000_0000, 0x0008_0000_0000_0000,
    0x0010_0000_0000_0000, 0x0020_0000_0000_0000, 0x0040_0000_0000_0000, 0x0080_0000_0000_0000,
    0x0100_0000_0000_0000, 0x0200_0000_0000_0000, 0x0400_0000_0000_0000, 0x0800_0000_0000_0000,
    0x1000_0000_0000_0000, 0x2000_0000_0000_0000, 0x4000_0000_0000_0000, 0x8000_0000_0000_0000,
];

/// The bit of `pcpu`, or 0 where a mask has none.
pub fn pcpu_bit(pcpu: u32) -> u64
    ensures { result ≡ pcpu_bit pcpu }
{
    if pcpu < 64 {
        PCPU_BITS[pcpu as usize]
    } else {
        0
    }
}

/// The mask of the first `num_pcpus` pCPUs, or of all 64.
pub fn full_mask(num_pcpus: usize) -> u64
    ensures { result ≡ full_mask num_pcpus }
{
    if num_pcpus < 64 {
        pcpu_bit(num_pcpus as u32) - 1
    } else {
        u64::MAX
    }
}

/// Whether `mask` admits `pcpu`; it never admits one from 64 up.
#[tactic(auto, using(crate::proofs::Words::meets_pcpu))]
pub fn mask_permits(mask: u64, pcpu: u32) -> bool
    ensures { result ≡ permits mask pcpu }
{
    mask & pcpu_bit(pcpu) != 0
}

/// `mask` without what lies beyond the first `num_pcpus` pCPUs.
#[tactic(auto, using(std::proofs::lemmas::Nat::and_mask))]
pub fn clip(mask: u64, num_pcpus: usize) -> u64
    ensures { result ≡ clipped mask num_pcpus }
{
    mask & full_mask(num_pcpus)
}

/// The lowest-numbered pCPU of `set`, or 64 where it is empty.
#[tactic(auto, using(crate::proofs::Words::trailing_lowest))]
pub fn lowest_pcpu(set: u64) -> u32
    ensures { result ≡ lowest set }
{
    set.trailing_zeros()
}
