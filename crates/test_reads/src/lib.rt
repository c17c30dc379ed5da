//! What can be read of a host, as five lines of numbers: a vCPU, its domain, the host with one pCPU, the
//! verdict with the next move, eight numbers each, and the nine that are kept at the slot.

#![tactic(auto)]

ghost use Rattle.std.specs.Prelude.{◌≡◌, ◌+◌, ◌*◌, ◌≤◌, length};
ghost use Rattle.text.specs.Lines.{numbers_line};
ghost use Rattle.text.specs.Places.{Placed, put_within, end_within};
ghost use Rattle.test_reads.specs.Numbers.{maybe_state_number, maybe_numbers, holder_numbers, violation_numbers, decision_numbers};
ghost use Rattle.test_reads.specs.Reads.{vcpu_numbers, domain_numbers, host_numbers, move_numbers, reads_text, reads_room};

use advance::Decision;
use host::Host;
use system::{Answer, DomId, Occupant, Pcpu, RunState, System, Ticks, Vcpu};
use verdict::Violation;

/// The most bytes that the five lines take.
pub const ROOM: usize = 866;

/// What is asked about: a vCPU, a pCPU and a clock.
#[derive(Clone, Copy)]
pub struct Query {
    pub dom: DomId,
    pub vcpu: Vcpu,
    pub pcpu: Pcpu,
    pub clock: Ticks,
}

// ---- numbers for what is no number

fn maybe_state_number(found: Option<RunState>) -> u64
    ensures { result ≡ maybe_state_number found }
{
    match found {
        None => 0,
        Some(RunState::Offline) => 1,
        Some(RunState::Runnable) => 2,
        Some(RunState::Blocked) => 3,
        Some(RunState::Running { pcpu }) => pcpu as u64 + 4,
    }
}

fn maybe_numbers(found: Option<u64>) -> [u64; 2]
    ensures { result ≡ maybe_numbers found }
{
    match found {
        None => [0, 0],
        Some(n) => [1, n],
    }
}

fn holder_numbers(o: Occupant) -> [u64; 3]
    ensures { result ≡ holder_numbers o }
{
    match o {
        Occupant::Idle => [0, 0, 0],
        Occupant::Vcpu { dom, vcpu } => [1, dom as u64, vcpu as u64],
    }
}

fn violation_numbers(found: Option<Violation>) -> [u64; 3]
    ensures { result ≡ violation_numbers found }
{
    match found {
        None => [0, 0, 0],
        Some(Violation::Oversize) => [1, 0, 0],
        Some(Violation::RunningGhostPcpu { dom, vcpu }) => [2, dom as u64, vcpu as u64],
        Some(Violation::OccupancyBroken { dom, vcpu }) => [3, dom as u64, vcpu as u64],
        Some(Violation::RunningOffAffinity { dom, vcpu }) => [4, dom as u64, vcpu as u64],
        Some(Violation::OccupantGhost { pcpu }) => [5, pcpu as u64, 0],
        Some(Violation::OccupantNotRunning { pcpu }) => [6, pcpu as u64, 0],
    }
}

fn decision_numbers(d: Decision) -> [u64; 4]
    ensures { result ≡ decision_numbers d }
{
    match d {
        Decision::Run { dom, vcpu, pcpu } => [1, dom as u64, vcpu as u64, pcpu as u64],
        Decision::Preempt { dom, vcpu, pcpu } => [2, dom as u64, vcpu as u64, pcpu as u64],
        Decision::Idle => [0, 0, 0, 0],
    }
}

// ---- what is read

fn vcpu_numbers(s: &System, q: &Query) -> [u64; 8]
    ensures { result ≡ vcpu_numbers s.now q.now }
{
    let [ran, run_time] = maybe_numbers(s.runtime(q.dom, q.vcpu));
    let [on, since] = maybe_numbers(s.on_cpu_since(q.dom, q.vcpu));
    let [there, mask] = maybe_numbers(s.affinity_of(q.dom, q.vcpu));
    let state = maybe_state_number(s.state_of(q.dom, q.vcpu));
    let running = s.is_running(q.dom, q.vcpu) as u64;
    [state, running, ran, run_time, on, since, there, mask]
}

fn domain_numbers(h: &Host, q: &Query) -> [u64; 8]
    ensures { result ≡ domain_numbers h.now.system h.now.scheduler q.now }
{
    let s = &h.system;
    let [lowest, low, high, highest] = usage::usage(s, q.dom, q.clock);
    [
        s.affinity_permits(q.dom, q.vcpu, q.pcpu) as u64,
        h.scheduler.weight_of(q.dom, q.vcpu) as u64,
        s.vcpu_count(q.dom) as u64,
        s.full_affinity(),
        lowest as u64,
        low as u64,
        high as u64,
        highest as u64,
    ]
}

fn host_numbers(h: &Host, pcpu: Pcpu) -> [u64; 8]
    ensures { result ≡ host_numbers h.now.system h.now.scheduler pcpu }
{
    let s = &h.system;
    let [held, dom, vcpu] = holder_numbers(s.occupant(pcpu));
    [
        s.domain_count() as u64,
        s.pcpu_count() as u64,
        s.busy_pcpus() as u64,
        h.scheduler.quantum(),
        verdict::invariants_hold(s) as u64,
        held,
        dom,
        vcpu,
    ]
}

fn move_numbers(h: &Host, clock: Ticks) -> [u64; 8]
    ensures { result ≡ move_numbers h.now.system h.now.scheduler clock }
{
    let [wrong, place, vcpu] = violation_numbers(verdict::first_violation(&h.system));
    let (answer, decision) = match advance::next(&h.system, &h.scheduler, clock) {
        Ok(decision) => (Answer::Done, decision),
        Err(answer) => (answer, Decision::Idle),
    };
    let [way, of_dom, of_vcpu, pcpu] = decision_numbers(decision);
    [
        wrong,
        place,
        vcpu,
        system::number_of(answer),
        way,
        of_dom,
        of_vcpu,
        pcpu,
    ]
}

// ---- as lines

fn put_numbers(out: &mut [u8], at: usize, numbers: &[u64]) -> usize
    requires few { length numbers.now ≤ 9 }
    requires fits { at + (length numbers.now * 21 + 1) ≤ length out.old }
    ensures placed { Placed out.old at (numbers_line numbers.now) out.new result }
    ensures within { result ≤ at + (length numbers.now * 21 + 1) }
{
    let line = text::numbers_line(numbers);
    text::append(out, at, &line.bytes[..line.length])
}

fn put_reads(out: &mut [u8], at: usize, h: &Host, q: &Query) -> usize
    requires { at + reads_room ≤ length out.old }
    ensures { Placed out.old at (reads_text h.now.system h.now.scheduler q.now) out.new result }
{
    let a = put_numbers(out, at, &vcpu_numbers(&h.system, q));
    let b = put_numbers(out, a, &domain_numbers(h, q));
    let c = put_numbers(out, b, &host_numbers(h, q.pcpu));
    let d = put_numbers(out, c, &move_numbers(h, q.clock));
    put_numbers(out, d, &test_fields::kept(h, q.dom, q.vcpu))
}

/// Puts what can be read of a host at index `at`, if ROOM bytes are left there, and answers the
/// index past it.
pub fn reads(out: &mut [u8], at: usize, h: &Host, q: &Query) -> usize
    ensures put { out.new ≡ put_within reads_room out.old at (reads_text h.now.system h.now.scheduler q.now) }
    ensures end { result ≡ end_within reads_room out.old at (reads_text h.now.system h.now.scheduler q.now) }
{
    if out.len() < at || out.len() - at < ROOM {
        return at;
    }
    put_reads(out, at, h, q)
}
