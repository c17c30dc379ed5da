//! A host: a system and a policy together, and one step.

#![tactic(auto)]

ghost use Rattle.std.specs.Prelude.{◌≡◌, IfErr};
ghost use Rattle.system.specs.declared.Answer.TheVariants.{TooLarge};
ghost use Rattle.calls.specs.Typed.{Typed};
ghost use Rattle.host.specs.Step.{step};
ghost use Rattle.host.specs.Outcomes.{host_outcome, step_counted, built_outcome, built_host};

pub use advance::Outcome;
use calls::Call;
use policy::Scheduler;
use system::{Answer, System, Ticks};

/// A system and the policy that drives it.
#[derive(Clone, Copy)]
pub struct Host {
    pub system: System,
    pub scheduler: Scheduler,
}

// What a call is told that enacts no move.
fn told(answer: Answer) -> Outcome
    ensures answered { result.answer ≡ answer }
    ensures unmoved { result.count ≡ 0 }
{
    Outcome { answer, count: 0 }
}

impl Host {
    /// A host of that shape, with a policy of the same. One above the sizes is refused.
    pub fn new(
        num_domains: usize,
        vcpus_per_domain: usize,
        num_pcpus: usize,
        quantum: Ticks,
    ) -> Result<Host, Answer>
        ensures built { built_outcome result ≡ built_host num_domains vcpus_per_domain num_pcpus quantum }
        ensures refused { IfErr result (λ a. a ≡ TooLarge) }
    {
        let system = System::new(num_domains, vcpus_per_domain, num_pcpus)?;
        let scheduler = Scheduler::new(num_domains, vcpus_per_domain, quantum)?;
        Ok(Host { system, scheduler })
    }

    /// One call. Whatever call it is handed fits its types.
    #[tactic(auto, unfolding(crate::specs::Step::step))]
    pub fn step(&mut self, call: Call) -> Outcome
        ensures stepped { host_outcome result self.new ≡ step_counted (step self.old call) }
        ensures typed { Typed call }
    {
        match call {
            Call::Ask { dom, vcpu, request } => {
                told(sched::requested(&mut self.system, dom, vcpu, request))
            }
            Call::OfflineAll { dom, now } => told(sched::offline_all(&mut self.system, dom, now)),
            Call::SetWeight { dom, vcpu, weight } => {
                self.scheduler.set_weight(dom, vcpu, weight);
                told(Answer::Done)
            }
            Call::SetWakeBoost { enabled } => {
                self.scheduler.set_wake_boost(enabled);
                told(Answer::Done)
            }
            Call::Advance { now } => advance::advance(&mut self.system, &mut self.scheduler, now),
        }
    }
}
