//! A load: opened, and handed out record by record.

#![tactic(auto, using(crate::proofs::Page::loads))]

ghost use Rattle.std.specs.Prelude.{◌≡◌};
ghost use Rattle.page.specs.Load.{opened, left, handed, filled, filled_out};
ghost use Rattle.page.specs.Handed.{HandsLoad};

use load_script::{Load, Opened};
use records::{Record, Shape};

pub fn open(seed: u64, shape: Shape, count: u32) -> Opened
    ensures { HandsLoad result (opened seed shape count) }
{
    load_script::open(seed, shape, count)
}

pub fn records_left(load: &Load) -> usize
    ensures { result ≡ left load.now }
{
    load.records_left()
}

/// A load is an iterator of its records.
pub fn next(load: &mut Load) -> Option<Record>
    ensures handed_out { result ≡ (handed load.old).next }
    ensures load { load.new ≡ (handed load.old).load }
{
    load.next()
}

pub fn fill(load: &mut Load, out: &mut [u8]) -> usize
    ensures bytes_after { out.new ≡ filled_out load.old out.old }
    ensures load { load.new ≡ (filled load.old out.old).load }
    ensures written { result ≡ (filled load.old out.old).written }
{
    load.fill(out)
}
