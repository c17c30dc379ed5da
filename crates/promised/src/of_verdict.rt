//! Verdicts on a system, and the pCPU that a vCPU is on.

#![tactic(auto, using(crate::proofs::Page::verdicts))]

ghost use Rattle.std.specs.Prelude.{◌≡◌};
ghost use Rattle.page.specs.Verdict.{first_violation, sound};
ghost use Rattle.page.specs.InPlace.{pcpu_on};

use system::{System, VirtualCpu};
use verdict::Violation;

pub fn first_violation(s: &System) -> Option<Violation>
    ensures { result ≡ first_violation s.now }
{
    verdict::first_violation(s)
}

pub fn invariants_hold(s: &System) -> bool
    ensures { result ≡ sound s.now }
{
    verdict::invariants_hold(s)
}

pub fn pcpu_index(v: &VirtualCpu) -> usize
    ensures { result ≡ pcpu_on v.now.state }
{
    verdict::pcpu_index(v)
}
