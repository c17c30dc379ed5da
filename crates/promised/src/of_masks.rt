//! Sets of pCPUs.

#![tactic(auto, using(crate::proofs::Page::leaves))]

ghost use Rattle.std.specs.Prelude.{◌≡◌};
ghost use Rattle.page.specs.Leaves.{pcpu_bit, full_mask, clip, lowest_pcpu};
ghost use Rattle.page.specs.Next.{admits};

pub fn pcpu_bit(pcpu: u32) -> u64
    ensures { result ≡ pcpu_bit pcpu }
{
    masks::pcpu_bit(pcpu)
}

pub fn full_mask(num_pcpus: usize) -> u64
    ensures { result ≡ full_mask num_pcpus }
{
    masks::full_mask(num_pcpus)
}

pub fn mask_permits(mask: u64, pcpu: u32) -> bool
    ensures { result ≡ admits mask pcpu }
{
    masks::mask_permits(mask, pcpu)
}

pub fn clip(mask: u64, num_pcpus: usize) -> u64
    ensures { result ≡ clip mask num_pcpus }
{
    masks::clip(mask, num_pcpus)
}

pub fn lowest_pcpu(set: u64) -> u32
    ensures { result ≡ lowest_pcpu set }
{
    masks::lowest_pcpu(set)
}
