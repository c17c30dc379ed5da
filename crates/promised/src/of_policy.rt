//! A policy as built, its look-ups and its calls, and an accounting.

#![tactic(auto, using(crate::proofs::Page::policies))]

ghost use Rattle.std.specs.Prelude.{◌≡◌, ◌+◌, ◌-◌, ◌/◌, ◌%◌, max};
ghost use Rattle.page.specs.Accounting.{accounted};
ghost use Rattle.page.specs.Policy.{account, weight, number, four, hold, set_weight, set_wake_boost, new_policy_told};
ghost use Rattle.page.specs.Standing.{in_flight};
ghost use Rattle.page.specs.Handed.{HandsNewPolicy};

use policy::{Account, Scheduler, Weight};
use service::Service;
use system::{Answer, DomId, System, Ticks, Vcpu, VirtualCpu};

pub fn new(num_domains: usize, vcpus_per_domain: usize, quantum: Ticks) -> Result<Scheduler, Answer>
    ensures { HandsNewPolicy result (new_policy_told num_domains vcpus_per_domain quantum) }
{
    Scheduler::new(num_domains, vcpus_per_domain, quantum)
}

pub fn account_at(p: &Scheduler, i: usize) -> Account
    ensures { result ≡ account p.now (i / 8) (i % 8) }
{
    p.account_at(i)
}

pub fn used_weight(a: &Account) -> Weight
    ensures { result ≡ max a.now.weight 1 }
{
    a.used_weight()
}

pub fn service_of(v: &VirtualCpu, a: &Account, now: Ticks) -> Service
    ensures { result ≡ four (hold (v.now.runtime + in_flight v.now.state (now - v.now.dispatched_at) + number a.now.offset)) }
{
    policy::service_of(v, a, now)
}

pub fn weight_of(p: &Scheduler, dom: DomId, vcpu: Vcpu) -> Weight
    ensures { result ≡ weight p.now dom vcpu }
{
    p.weight_of(dom, vcpu)
}

pub fn set_weight(p: &mut Scheduler, dom: DomId, vcpu: Vcpu, weight: Weight)
    ensures { p.new ≡ set_weight p.old dom vcpu weight }
{
    p.set_weight(dom, vcpu, weight)
}

pub fn quantum(p: &Scheduler) -> Ticks
    ensures { result ≡ p.now.quantum }
{
    p.quantum()
}

pub fn set_wake_boost(p: &mut Scheduler, enabled: bool)
    ensures { p.new ≡ set_wake_boost p.old enabled }
{
    p.set_wake_boost(enabled)
}

pub fn account(p: &mut Scheduler, s: &System, now: Ticks)
    ensures { p.new ≡ accounted s.now p.old now }
{
    p.account(s, now)
}
