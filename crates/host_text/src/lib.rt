//! A host as text: a line for each vCPU, by domain, then vCPU, and one for each pCPU that somebody holds.

#![tactic(auto)]

ghost use Rattle.std.specs.Prelude.{◌≡◌, ◌+◌, ◌*◌, ◌≤◌, length};
ghost use Rattle.system.specs.Slots.{domains, pcpus};
ghost use Rattle.text.specs.Places.{Placed, put_within, end_within};
ghost use Rattle.host_text.specs.HostText.{state_number, pcpu_number, clock_number, slot_row, pcpu_row, vcpu_rows, pcpu_rows, host_text};
ghost use Rattle.host_text.specs.Rooms.{vcpu_room, pcpu_room, vcpus_room, pcpus_room, host_room};

use policy::Scheduler;
use system::{MAX_DOMAINS, MAX_PCPUS, MAX_VCPUS, NO_PCPU, Occupant, RunState, System, VirtualCpu};

/// The most bytes that the line of a vCPU takes: nine numbers of 20 digits, a space before each, and
/// the line's end.
pub const VCPU_ROOM: usize = 190;
/// The most bytes that the line of a pCPU takes: its mark and three numbers.
pub const PCPU_ROOM: usize = 66;
/// The most bytes that a host's text takes: the lines of 128 vCPUs and 64 pCPUs.
pub const HOST_ROOM: usize = MAX_DOMAINS * MAX_VCPUS * VCPU_ROOM + MAX_PCPUS * PCPU_ROOM;

fn state_number(state: RunState) -> u64
    ensures { result ≡ state_number state }
{
    match state {
        RunState::Offline => 0,
        RunState::Runnable => 1,
        RunState::Running { .. } => 2,
        RunState::Blocked => 3,
    }
}

// The number of the pCPU that it runs on, or that which stands for none.
fn pcpu_number(state: RunState) -> u64
    ensures { result ≡ pcpu_number state }
{
    match state {
        RunState::Running { pcpu } => pcpu as u64,
        _ => NO_PCPU as u64,
    }
}

// The clock of its dispatch has a meaning only while it runs.
fn clock_number(dispatched_at: u64, state: RunState) -> u64
    ensures { result ≡ clock_number dispatched_at state }
{
    if state.is_running() { dispatched_at } else { 0 }
}

// The line of slot i, where a domain has k vCPUs.
fn put_vcpu(out: &mut [u8], at: usize, i: usize, k: usize, v: &VirtualCpu, weight: u32) -> usize
    requires { at + vcpu_room ≤ length out.old }
    ensures { Placed out.old at (slot_row k i v.now weight) out.new result }
{
    if k <= i % MAX_VCPUS {
        return at;
    }
    let line = text::numbers_line(&[
        (i / MAX_VCPUS) as u64,
        (i % MAX_VCPUS) as u64,
        state_number(v.state),
        pcpu_number(v.state),
        clock_number(v.dispatched_at, v.state),
        v.runtime,
        v.affinity,
        weight as u64,
        v.last as u64,
    ]);
    text::append(out, at, &line.bytes[..line.length])
}

fn put_pcpu(out: &mut [u8], at: usize, pcpu: usize, occupant: Occupant) -> usize
    requires { at + pcpu_room ≤ length out.old }
    ensures { Placed out.old at (pcpu_row pcpu occupant) out.new result }
{
    match occupant {
        Occupant::Idle => at,
        Occupant::Vcpu { dom, vcpu } => {
            let line = text::pcpu_line(pcpu as u64, dom as u64, vcpu as u64);
            text::append(out, at, &line.bytes[..line.length])
        }
    }
}

fn put_vcpus(out: &mut [u8], at: usize, s: &System, p: &Scheduler) -> usize
    requires { at + vcpus_room ≤ length out.old }
    ensures { Placed out.old at (vcpu_rows s.now p.now (domains s.now * 8)) out.new result }
{
    let k = s.vcpus_per_domain();
    let mut past = at;
    for i in 0..s.domain_count() * MAX_VCPUS {
        past = put_vcpu(out, past, i, k, &s.vcpus[i], p.account_at(i).used_weight());
    }
    past
}

fn put_pcpus(out: &mut [u8], at: usize, s: &System) -> usize
    requires { at + pcpus_room ≤ length out.old }
    ensures { Placed out.old at (pcpu_rows s.now (pcpus s.now)) out.new result }
{
    let mut past = at;
    for p in 0..s.pcpu_count() {
        past = put_pcpu(out, past, p, s.pcpus[p].occupant);
    }
    past
}

/// Puts a host's text at index `at`; where there is not room for the longest from there on, nothing.
/// Answers the index past it.
pub fn put_host(out: &mut [u8], at: usize, s: &System, p: &Scheduler) -> usize
    ensures put { out.new ≡ put_within host_room out.old at (host_text s.now p.now) }
    ensures end { result ≡ end_within host_room out.old at (host_text s.now p.now) }
{
    if out.len() < HOST_ROOM || out.len() - HOST_ROOM < at {
        return at;
    }
    let past = put_vcpus(out, at, s, p);
    put_pcpus(out, past, s)
}
