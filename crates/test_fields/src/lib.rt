//! The fields of a host as they stand in its tables, within the counts or not: one of them written
//! with no test, which is how damaged hosts are made, and what is kept at a slot.

#![tactic(auto)]

ghost use Rattle.std.specs.Prelude.{◌≡◌, ◌==◌, if◌then◌else◌};
ghost use Rattle.test_fields.specs.Fields.{state_written, occupant_written, vcpu_written, system_written};
ghost use Rattle.test_fields.specs.Fields.{offset_written, account_written, policy_written, written, bit, kept};

use host::Host;
use policy::{Account, Scheduler};
use records::Record;
use service::Service;
use system::{DomId, Occupant, RunState, System, Vcpu, VirtualCpu};

/// The first kind of record that names a field.
pub const FIRST: u16 = 13;
/// The last one.
pub const LAST: u16 = 29;

/// What is kept at a slot, as numbers.
pub type Numbers = [u64; 9];

// ---- one field: what the record says if the kind names it, else what is there. Kinds stay numbers, as the stream of records
// has them; specs/Fields lists them.

fn named<T: Copy>(r: Record, kind: u16, said: T, old: T) -> T
    ensures { result ≡ (if r.kind == kind then said else old) }
{
    if r.kind == kind { said } else { old }
}

fn state(r: Record, old: RunState) -> RunState
    ensures { result ≡ state_written r old }
{
    let said = match r.value {
        0 => RunState::Offline,
        1 => RunState::Runnable,
        2 => RunState::Running { pcpu: r.third },
        _ => RunState::Blocked,
    };
    named(r, 13, said, old)
}

fn occupant(r: Record, old: Occupant) -> Occupant
    ensures { result ≡ occupant_written r old }
{
    let said = if r.value == 0 {
        Occupant::Idle
    } else {
        Occupant::Vcpu {
            dom: r.dom,
            vcpu: r.vcpu,
        }
    };
    named(r, 17, said, old)
}

fn offset(r: Record, old: Service) -> Service
    ensures { result ≡ offset_written r old }
{
    let low = (r.value % 0x1_0000_0000) as u32;
    let high = (r.value / 0x1_0000_0000) as u32;
    match r.kind {
        26 => [low, high, old[2], old[3]],
        27 => [old[0], old[1], low, high],
        _ => old,
    }
}

// ---- the records of a host

#[tactic(auto, unfolding(crate::specs::Fields::vcpu_written))]
fn write_vcpu(v: &mut VirtualCpu, r: Record)
    ensures { v.new ≡ vcpu_written r v.old }
{
    v.state = state(r, v.state);
    v.runtime = named(r, 14, r.value, v.runtime);
    v.dispatched_at = named(r, 15, r.value, v.dispatched_at);
    v.affinity = named(r, 16, r.value, v.affinity);
    v.last = named(r, 29, r.third, v.last);
}

#[tactic(auto, unfolding(crate::specs::Fields::system_written, system::specs::Reads::vcpu_at, system::specs::Reads::occupant_at))]
fn write_system(s: &mut System, r: Record)
    ensures { s.new ≡ system_written r s.old }
{
    let p = (r.third % 64) as usize;
    write_vcpu(&mut s.vcpus[system::slot_read(r.dom, r.vcpu)], r);
    s.pcpus[p].occupant = occupant(r, s.pcpus[p].occupant);
    s.domain_count = named(r, 18, r.value as usize, s.domain_count);
    s.vcpus_per_domain = named(r, 19, r.value as usize, s.vcpus_per_domain);
    s.pcpu_count = named(r, 20, r.value as usize, s.pcpu_count);
}

#[tactic(auto, unfolding(crate::specs::Fields::account_written))]
fn write_account(a: &mut Account, r: Record)
    ensures { a.new ≡ account_written r a.old }
{
    a.weight = named(r, 25, r.third, a.weight);
    a.offset = offset(r, a.offset);
    a.was_schedulable = named(r, 28, r.value != 0, a.was_schedulable);
}

fn write_policy(p: &mut Scheduler, r: Record)
    ensures { p.new ≡ policy_written r p.old }
{
    write_account(&mut p.accounts[system::slot_read(r.dom, r.vcpu)], r);
    p.domain_count = named(r, 21, r.value as usize, p.domain_count);
    p.vcpus_per_domain = named(r, 22, r.value as usize, p.vcpus_per_domain);
    p.quantum = named(r, 23, r.value, p.quantum);
    p.wake_boost = named(r, 24, r.value != 0, p.wake_boost);
}

/// Writes the field that the record's kind names; a kind that names none leaves the host.
pub fn write(h: &mut Host, r: Record)
    ensures { h.new ≡ written r h.old }
{
    write_system(&mut h.system, r);
    write_policy(&mut h.scheduler, r);
}

// ---- what is kept

/// A number as a wider one.
pub fn wide(n: u32) -> u64
    ensures { result ≡ n }
{
    n as u64
}

/// 1 for true, 0 for false.
pub fn bit(b: bool) -> u64
    ensures { result ≡ bit b }
{
    b as u64
}

/// What no other read tells, at a slot: the weight as stored, the offset by limbs, the snapshot, the boost,
/// the clock of the last dispatch, and the pCPU that it was last on.
pub fn kept(h: &Host, dom: DomId, vcpu: Vcpu) -> Numbers
    ensures { result ≡ kept h.now.system h.now.scheduler dom vcpu }
{
    let i = system::slot_read(dom, vcpu);
    let v = &h.system.vcpus[i];
    let a = &h.scheduler.accounts[i];
    let [lowest, low, high, highest] = a.offset;
    [
        wide(a.weight),
        wide(lowest),
        wide(low),
        wide(high),
        wide(highest),
        bit(a.was_schedulable),
        bit(h.scheduler.wake_boost),
        v.dispatched_at,
        wide(v.last),
    ]
}
