//! A system as built, what can be read of one and of its records, and an answer's number.

#![tactic(auto, using(crate::proofs::Page::reads))]

ghost use Rattle.std.specs.Prelude.{◌≡◌, ◌+◌, ◌-◌, ◌&&◌, leb};
ghost use Rattle.page.specs.Host.{domains, vcpus, pcpus};
ghost use Rattle.page.specs.Policy.{number, four};
ghost use Rattle.page.specs.Standing.{in_flight};
ghost use Rattle.page.specs.Next.{is_idle};
ghost use Rattle.page.specs.Accounting.{pooled};
ghost use Rattle.page.specs.Calls.{new_system_told};
ghost use Rattle.page.specs.Reads.{vcpu_count, vcpu_of, state_of, running, is_running, runtime, on_cpu_since, occupant};
ghost use Rattle.page.specs.Reads.{affinity_of, affinity_permits, full_affinity, busy_pcpus};
ghost use Rattle.page.specs.Steps.{number_of};
ghost use Rattle.page.specs.Handed.{HandsNewSystem};
ghost use Rattle.page.specs.InPlace.{slot_read};

use service::Service;
use system::{Answer, DomId, Occupant, Pcpu, RunState, System, Ticks, Vcpu, VirtualCpu};

pub fn number_of(answer: Answer) -> u64
    ensures { result ≡ number_of answer }
{
    system::number_of(answer)
}

pub fn slot_read(dom: DomId, vcpu: Vcpu) -> usize
    ensures { result ≡ slot_read dom vcpu }
{
    system::slot_read(dom, vcpu)
}

// ---- as built

pub fn within_sizes(num_domains: usize, vcpus_per_domain: usize, num_pcpus: usize) -> bool
    ensures { result ≡ (leb num_domains 16 && (leb vcpus_per_domain 8 && leb num_pcpus 64)) }
{
    system::within_sizes(num_domains, vcpus_per_domain, num_pcpus)
}

pub fn new(num_domains: usize, vcpus_per_domain: usize, num_pcpus: usize) -> Result<System, Answer>
    ensures { HandsNewSystem result (new_system_told num_domains vcpus_per_domain num_pcpus) }
{
    System::new(num_domains, vcpus_per_domain, num_pcpus)
}

// ---- what can be read of a record

pub fn occupant_is_idle(occupant: Occupant) -> bool
    ensures { result ≡ is_idle occupant }
{
    occupant.is_idle()
}

pub fn state_is_running(state: RunState) -> bool
    ensures { result ≡ running state }
{
    state.is_running()
}

pub fn state_is_schedulable(state: RunState) -> bool
    ensures { result ≡ pooled state }
{
    state.is_schedulable()
}

pub fn elapsed(v: &VirtualCpu, now: Ticks) -> u64
    ensures { result ≡ now - v.now.dispatched_at }
{
    v.elapsed(now)
}

pub fn in_flight(v: &VirtualCpu, now: Ticks) -> u64
    ensures { result ≡ in_flight v.now.state (now - v.now.dispatched_at) }
{
    v.in_flight(now)
}

/// It is exact: the four limbs hold it whole.
pub fn runtime_until(v: &VirtualCpu, now: Ticks) -> Service
    ensures limbs { result ≡ four (v.now.runtime + in_flight v.now.state (now - v.now.dispatched_at)) }
    ensures exact { number result ≡ v.now.runtime + in_flight v.now.state (now - v.now.dispatched_at) }
{
    v.runtime_until(now)
}

// ---- what can be read of a system

pub fn domain_count(s: &System) -> usize
    ensures { result ≡ domains s.now }
{
    s.domain_count()
}

pub fn vcpus_per_domain(s: &System) -> usize
    ensures { result ≡ vcpus s.now }
{
    s.vcpus_per_domain()
}

pub fn vcpu_count(s: &System, dom: DomId) -> usize
    ensures { result ≡ vcpu_count s.now dom }
{
    s.vcpu_count(dom)
}

pub fn pcpu_count(s: &System) -> usize
    ensures { result ≡ pcpus s.now }
{
    s.pcpu_count()
}

pub fn vcpu(s: &System, dom: DomId, vcpu: Vcpu) -> Option<VirtualCpu>
    ensures { result ≡ vcpu_of s.now dom vcpu }
{
    s.vcpu(dom, vcpu)
}

pub fn state_of(s: &System, dom: DomId, vcpu: Vcpu) -> Option<RunState>
    ensures { result ≡ state_of s.now dom vcpu }
{
    s.state_of(dom, vcpu)
}

pub fn is_running(s: &System, dom: DomId, vcpu: Vcpu) -> bool
    ensures { result ≡ is_running s.now dom vcpu }
{
    s.is_running(dom, vcpu)
}

pub fn runtime(s: &System, dom: DomId, vcpu: Vcpu) -> Option<Ticks>
    ensures { result ≡ runtime s.now dom vcpu }
{
    s.runtime(dom, vcpu)
}

pub fn on_cpu_since(s: &System, dom: DomId, vcpu: Vcpu) -> Option<Ticks>
    ensures { result ≡ on_cpu_since s.now dom vcpu }
{
    s.on_cpu_since(dom, vcpu)
}

pub fn occupant(s: &System, pcpu: Pcpu) -> Occupant
    ensures { result ≡ occupant s.now pcpu }
{
    s.occupant(pcpu)
}

pub fn affinity_of(s: &System, dom: DomId, vcpu: Vcpu) -> Option<u64>
    ensures { result ≡ affinity_of s.now dom vcpu }
{
    s.affinity_of(dom, vcpu)
}

pub fn affinity_permits(s: &System, dom: DomId, vcpu: Vcpu, pcpu: Pcpu) -> bool
    ensures { result ≡ affinity_permits s.now dom vcpu pcpu }
{
    s.affinity_permits(dom, vcpu, pcpu)
}

pub fn full_affinity(s: &System) -> u64
    ensures { result ≡ full_affinity s.now }
{
    s.full_affinity()
}

pub fn busy_pcpus(s: &System) -> usize
    ensures { result ≡ busy_pcpus s.now }
{
    s.busy_pcpus()
}
