//! Between a system and the table that `moves` settles over: a vCPU's standing and row, the set of idle
//! pCPUs, and what a move leaves of the system. It knows no rule: whether a slot is barred, its weight
//! and its service are handed to it.

#![tactic(auto)]

ghost use Rattle.std.specs.Prelude.{◌≡◌, ◌+◌, ◌*◌, min};
ghost use Rattle.masks.specs.Sets.{set_of};
ghost use Rattle.rules.specs.Settle.{slot_in, onto_in};
ghost use Rattle.settling.specs.Standings.{standing_of};
ghost use Rattle.settling.specs.IdleSet.{idle_in};
ghost use Rattle.settling.specs.AfterMoves.{record_after, occupant_after};
ghost use Rattle.settling.specs.TableOf.{row_of};

use moves::{Choice, Row, Standing};
use service::Service;
use system::{Occupant, PhysicalCpu, RunState, Ticks, VirtualCpu};

// ---- the table

/// A vCPU waits that is not barred; one is expired that has held its pCPU for the slice; any other rests.
pub fn standing_of(
    v: &VirtualCpu,
    present: bool,
    barred: bool,
    slice: Ticks,
    now: Ticks,
) -> Standing
    ensures { result ≡ standing_of present barred slice now v.now }
{
    match v.state {
        RunState::Runnable if present && !barred => Standing::Waits,
        // % 64 keeps the pCPU in range without a precondition.
        RunState::Running { pcpu } if present && slice <= v.elapsed(now) => {
            Standing::Expired { pcpu: pcpu % 64 }
        }
        _ => Standing::Rests,
    }
}

/// What a decision goes by, of a vCPU; `leaving` is its service once it has left, read where it may be preempted.
pub fn row_of(
    standing: Standing,
    weight: u32,
    service: Service,
    leaving: Service,
    v: &VirtualCpu,
) -> Row
    ensures { result ≡ row_of standing weight service leaving v.now }
{
    Row {
        standing,
        mask: v.affinity,
        service,
        weight,
        last: v.last,
        leaving,
    }
}

/// The set of idle pCPUs, of a table and a count.
pub fn idle_set(pcpus: &[PhysicalCpu; 64], pcpu_count: usize) -> u64
    ensures { result ≡ set_of (idle_in pcpus.now pcpu_count) 64 }
{
    let mut set: u64 = 0;
    for q in 0..pcpu_count.min(system::MAX_PCPUS) {
        if pcpus[q].occupant.is_idle() {
            set += masks::pcpu_bit(q as u32);
        }
    }
    set
}

/// The most moves of an advance.
pub fn most_moves(domain_count: usize, vcpus_per_domain: usize, pcpu_count: usize) -> usize
    ensures { result ≡ min domain_count 16 * min vcpus_per_domain 8 + 2 * min pcpu_count 64 + 1 }
{
    let d = domain_count.min(system::MAX_DOMAINS);
    let v = vcpus_per_domain.min(system::MAX_VCPUS);
    let p = pcpu_count.min(system::MAX_PCPUS);
    d * v + 2 * p + 1
}

// ---- one move

/// The slot that a choice moves, 0 where it moves none.
pub fn slot_in(c: Choice) -> usize
    ensures { result ≡ slot_in c }
{
    match c {
        Choice::Run { at, .. } | Choice::Preempt { at, .. } => at,
        Choice::Rest => 0,
    }
}

/// The pCPU that it moves onto or off.
pub fn onto_in(c: Choice) -> u32
    ensures { result ≡ onto_in c }
{
    match c {
        Choice::Run { pcpu, .. } | Choice::Preempt { pcpu, .. } => pcpu,
        Choice::Rest => 0,
    }
}

/// The record of the vCPU that a choice moves, after it.
pub fn record_after(c: Choice, v: VirtualCpu, now: Ticks) -> VirtualCpu
    ensures { result ≡ record_after c v now }
{
    match c {
        Choice::Run { pcpu, .. } => changes::dispatched(v, pcpu, now),
        Choice::Preempt { .. } => changes::left(v, RunState::Runnable, now),
        Choice::Rest => v,
    }
}

/// Who holds the pCPU of a choice after it.
pub fn occupant_after(c: Choice) -> Occupant
    ensures { result ≡ occupant_after c }
{
    match c {
        // % 16 keeps the cast in range without a precondition.
        Choice::Run { at, .. } => Occupant::Vcpu {
            dom: (at / 8 % 16) as u16,
            vcpu: (at % 8) as u32,
        },
        Choice::Preempt { .. } | Choice::Rest => Occupant::Idle,
    }
}
