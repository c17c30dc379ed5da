//! The usage file of a host.

#![tactic(auto, using(crate::proofs::Page::files))]

ghost use Rattle.std.specs.Prelude.{◌≡◌, length, take};
ghost use Rattle.page.specs.Host.{domains, vcpus};
ghost use Rattle.page.specs.Policy.{weight};
ghost use Rattle.page.specs.UsageFile.{ran, file, written};
ghost use Rattle.page.specs.UsageFacts.{Says};

use policy::Scheduler;
use system::{System, Ticks};
use usage_write::Written;

/// Whoever reads the file finds the host's own figures in it.
pub fn write(s: &System, p: &Scheduler, now: Ticks) -> Written
    ensures bytes { result.bytes ≡ written s.now p.now now }
    ensures file_length { result.length ≡ length (file s.now p.now now) }
    ensures first { take result.length result.bytes ≡ file s.now p.now now }
    ensures says { Says (file s.now p.now now) (domains s.now) (vcpus s.now) (weight p.now) (ran s.now now) }
{
    usage_write::write(s, p, now)
}
