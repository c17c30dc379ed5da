//! A host as built, and each of its calls.

ghost use Rattle.page.specs.Steps.{Hands, step, build};
ghost use Rattle.page.specs.Handed.{HandsNewHost};

use calls::Call;
use host::{Host, Outcome};
use system::{Answer, Ticks};

pub fn new(
    num_domains: usize,
    vcpus_per_domain: usize,
    num_pcpus: usize,
    quantum: Ticks,
) -> Result<Host, Answer>
    ensures { HandsNewHost result (build num_domains vcpus_per_domain num_pcpus quantum) }
{
    Host::new(num_domains, vcpus_per_domain, num_pcpus, quantum)
}

pub fn step(h: &mut Host, call: Call) -> Outcome
    ensures { Hands result h.new (step h.old call) }
{
    h.step(call)
}
