//! Verdicts on a system: the first breach of its invariants, in upstream's scan order.

#![tactic(auto)]

ghost use Rattle.std.specs.Prelude.{◌≡◌, true, ◌*◌, Option, is_none};
ghost use Rattle.system.specs.Shape.{within_sizes};
ghost use Rattle.system.specs.Slots.{domains, pcpus};
ghost use Rattle.system.specs.States.{runs_on};
ghost use Rattle.verdict.specs.Violations.{names, earliest, slot_violation, pcpu_violation};
ghost use Rattle.verdict.specs.Violations.{first_violation, invariants_hold};
ghost use Rattle.verdict.specs.OneViolation.{pcpu_index, vcpu_violation_at, holder_slot, holder_violation_at, runs_within};

use system::{Occupant, PhysicalCpu, RunState, System, VirtualCpu};

/// What is wrong with a system, and where.
#[derive(Clone, Copy, PartialEq, Eq)]
pub enum Violation {
    /// A count is above its size.
    Oversize,
    /// A Running vCPU names a pCPU that does not exist.
    RunningGhostPcpu { dom: usize, vcpu: usize },
    /// A Running vCPU's pCPU does not name it back.
    OccupancyBroken { dom: usize, vcpu: usize },
    /// A Running vCPU is on a pCPU outside its mask.
    RunningOffAffinity { dom: usize, vcpu: usize },
    /// A pCPU names an occupant whose ids are out of range.
    OccupantGhost { pcpu: usize },
    /// A pCPU names an occupant that is not Running on it.
    OccupantNotRunning { pcpu: usize },
}

// ---- one vCPU

/// The pCPU that a vCPU runs on, as an index that is always in the table.
// No Option: what stands at 0 is read and stored back as it was, with no test.
pub fn pcpu_index(v: &VirtualCpu) -> usize
    ensures { result ≡ pcpu_index v.now.state }
{
    match v.state {
        RunState::Running { pcpu } => (pcpu % 64) as usize,
        _ => 0,
    }
}

// Whether the occupant of a pCPU is vCPU dom/vcpu.
fn names_vcpu(c: &PhysicalCpu, dom: usize, vcpu: usize) -> bool
    ensures { result ≡ names c.now.occupant dom vcpu }
{
    match c.occupant {
        Occupant::Idle => false,
        Occupant::Vcpu { dom: d, vcpu: v } => d as usize == dom && v as usize == vcpu,
    }
}

// What is wrong with vCPU dom/vcpu, where c stands at its pCPU's index.
fn vcpu_violation(
    v: &VirtualCpu,
    c: &PhysicalCpu,
    pcpu_count: usize,
    dom: usize,
    vcpu: usize,
) -> Option<Violation>
    ensures { result ≡ vcpu_violation_at pcpu_count c.now.occupant dom vcpu v.now.affinity v.now.state }
{
    match v.state {
        RunState::Running { pcpu } => {
            if pcpu_count <= pcpu as usize {
                Some(Violation::RunningGhostPcpu { dom, vcpu })
            } else if !names_vcpu(c, dom, vcpu) {
                Some(Violation::OccupancyBroken { dom, vcpu })
            } else if !masks::mask_permits(v.affinity, pcpu) {
                Some(Violation::RunningOffAffinity { dom, vcpu })
            } else {
                None
            }
        }
        _ => None,
    }
}

// The first violation of a vCPU, by domain, then vCPU.
fn first_vcpu_violation(s: &System) -> Option<Violation>
    requires { within_sizes s.now.domain_count s.now.vcpus_per_domain s.now.pcpu_count ≡ true }
    ensures { result ≡ earliest (slot_violation s.now) (domains s.now * 8) }
{
    for i in 0..s.domain_count * 8 {
        if i % 8 < s.vcpus_per_domain {
            let v = &s.vcpus[i];
            let c = &s.pcpus[pcpu_index(v)];
            let found = vcpu_violation(v, c, s.pcpu_count, i / 8, i % 8);
            if found.is_some() {
                return found;
            }
        }
    }
    None
}

// ---- one pCPU

// The slot of the vCPU that holds a pCPU, as an index that is always in the table.
fn holder_slot(c: &PhysicalCpu) -> usize
    ensures { result ≡ holder_slot c.now.occupant }
{
    match c.occupant {
        Occupant::Idle => 0,
        Occupant::Vcpu { dom, vcpu } => system::slot_read(dom, vcpu),
    }
}

// Whether a vCPU is Running on a pCPU.
fn runs_on(v: &VirtualCpu, pcpu: usize) -> bool
    ensures { result ≡ runs_on pcpu v.now.state }
{
    match v.state {
        RunState::Running { pcpu: p } => p as usize == pcpu,
        _ => false,
    }
}

// What is wrong with a pCPU, where v is the record at its holder's slot.
fn pcpu_violation(
    c: &PhysicalCpu,
    v: &VirtualCpu,
    domain_count: usize,
    vcpus_per_domain: usize,
    pcpu: usize,
) -> Option<Violation>
    ensures { result ≡ holder_violation_at domain_count vcpus_per_domain v.now.state pcpu c.now.occupant }
{
    match c.occupant {
        Occupant::Idle => None,
        Occupant::Vcpu { dom, vcpu } => {
            if domain_count <= dom as usize || vcpus_per_domain <= vcpu as usize {
                Some(Violation::OccupantGhost { pcpu })
            } else if !runs_on(v, pcpu) {
                Some(Violation::OccupantNotRunning { pcpu })
            } else {
                None
            }
        }
    }
}

// The first violation of a pCPU.
fn first_pcpu_violation(s: &System) -> Option<Violation>
    requires { within_sizes s.now.domain_count s.now.vcpus_per_domain s.now.pcpu_count ≡ true }
    ensures { result ≡ earliest (pcpu_violation s.now) (pcpus s.now) }
{
    for p in 0..s.pcpu_count {
        let c = &s.pcpus[p];
        let v = &s.vcpus[holder_slot(c)];
        let found = pcpu_violation(c, v, s.domain_count, s.vcpus_per_domain, p);
        if found.is_some() {
            return found;
        }
    }
    None
}

// ---- the verdict

/// The first violation: a count above its size, then all vCPUs, then all pCPUs.
pub fn first_violation(s: &System) -> Option<Violation>
    ensures { result ≡ first_violation s.now }
{
    if !system::within_sizes(s.domain_count, s.vcpus_per_domain, s.pcpu_count) {
        return Some(Violation::Oversize);
    }
    let of_vcpus = first_vcpu_violation(s);
    if of_vcpus.is_some() {
        return of_vcpus;
    }
    first_pcpu_violation(s)
}

/// Whether vCPU dom/vcpu may stand where it does, where `c` stands at its pCPU's index.
pub fn is_backed(
    v: &VirtualCpu,
    c: &PhysicalCpu,
    pcpu_count: usize,
    dom: usize,
    vcpu: usize,
) -> bool
    ensures { result ≡ is_none (vcpu_violation_at pcpu_count c.now.occupant dom vcpu v.now.affinity v.now.state) }
{
    vcpu_violation(v, c, pcpu_count, dom, vcpu).is_none()
}

/// Whether a vCPU is Running and one of its domain's vCPUs.
pub fn runs_within(v: &VirtualCpu, vcpu: usize, vcpus_per_domain: usize) -> bool
    ensures { result ≡ runs_within vcpus_per_domain vcpu v.now.state }
{
    v.state.is_running() && vcpu < vcpus_per_domain
}

/// Whether a system has no violation.
// By one look at each vCPU: where every runner is backed and as many pCPUs are held as vCPUs run, each holder runs.
pub fn invariants_hold(s: &System) -> bool
    ensures { result ≡ invariants_hold s.now }
{
    let mut sound = system::within_sizes(s.domain_count, s.vcpus_per_domain, s.pcpu_count);
    let mut running = 0;
    for i in 0..s.domain_count() * 8 {
        let v = &s.vcpus[i];
        if runs_within(v, i % 8, s.vcpus_per_domain) {
            let c = &s.pcpus[pcpu_index(v)];
            if vcpu_violation(v, c, s.pcpu_count, i / 8, i % 8).is_some() {
                sound = false;
            }
            running += 1;
        }
    }
    sound && running == s.busy_pcpus()
}
