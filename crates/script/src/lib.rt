//! Scripts: the calls of a host as records of 20 bytes, a line for what each is told and, where it
//! is asked for, the whole host after it.

#![tactic(auto)]

ghost use Rattle.std.specs.Prelude.{◌≡◌, ℕ, ◌+◌, ◌*◌, ◌/◌, ◌<◌, ◌≤◌, true, false, length, drop};
ghost use Rattle.host.specs.Step.{fresh_host};
ghost use Rattle.host.specs.Outcomes.{host_outcome, built_host};
ghost use Rattle.text.specs.Places.{Placed};
ghost use Rattle.script.specs.Script.{begun, carried, built_after, script_next, entry, records_in, room, taken, Replayed};
ghost use Rattle.script.specs.Frames.{IsFrameOf};
ghost use Rattle.script.specs.NoCall.{is_no_call, no_call_at};

use calls::Call;
use host::{Host, Outcome};
use policy::Account;
use records::{Plan, Shape};
use sched::Frame;
use system::{Answer, PhysicalCpu, VirtualCpu};

/// The most bytes that a record's text takes where the host is written too.
pub const ENTRY_ROOM: usize = 28_700;

/// A script that is under way: how many records it had, and its host, once one is built.
// No Option: before a build there stands the host of nothing, of which `script_next` speaks.
#[derive(Clone, Copy)]
pub struct Script {
    pub number: u64,
    pub built: bool,
    pub host: Host,
}

/// How far a stretch of a script was taken: its records, and the bytes written.
#[derive(Clone, Copy)]
pub struct Taken {
    pub records: usize,
    pub written: usize,
}

impl Script {
    /// A script of which nothing was read.
    pub fn new() -> Script
        ensures { result ≡ begun }
    {
        Script {
            number: 0,
            built: false,
            host: nothing(),
        }
    }
}

// The host of no domains, vCPUs and pCPUs.
fn nothing() -> Host
    ensures { result ≡ fresh_host 0 0 0 0 0 0 }
{
    Host::new(0, 0, 0, 0).unwrap()
}

// ---- one record

// Builds a host in place of another; one above the sizes is refused, and leaves the host of nothing.
fn build(host: &mut Host, shape: Shape) -> Outcome
    ensures { host_outcome result host.new ≡ built_host shape.num_domains shape.vcpus_per_domain shape.num_pcpus shape.quantum }
{
    let built = Host::new(
        shape.num_domains,
        shape.vcpus_per_domain,
        shape.num_pcpus,
        shape.quantum,
    );
    let answer = match built {
        Ok(h) => {
            *host = h;
            Answer::Done
        }
        Err(answer) => {
            *host = nothing();
            answer
        }
    };
    Outcome { answer, count: 0 }
}

// The frame of a host, its soundness found by a test. Read as slices the tables tell their lengths.
fn frame_of(host: &Host) -> Frame
    ensures { IsFrameOf host.now result }
{
    let _vcpus: &[VirtualCpu] = &host.system.vcpus;
    let _pcpus: &[PhysicalCpu] = &host.system.pcpus;
    let _accounts: &[Account] = &host.scheduler.accounts;
    sched::frame_of(&host.system)
}

// What a plan does to a host whose frame is known, and to the frame: a call leaves that as it was. So a request
// is done in it, and the host is tested only where it is built.
fn carry(host: &mut Host, frame: &mut Frame, plan: Plan) -> Outcome
    requires { IsFrameOf host.old frame.old }
    ensures carried { host_outcome result host.new ≡ carried host.old plan }
    ensures framed { IsFrameOf host.new frame.new }
{
    let answer = match plan {
        Plan::Refuse(answer) => answer,
        Plan::Build(shape) => {
            let told = build(host, shape);
            *frame = frame_of(host);
            return told;
        }
        Plan::Call(Call::Ask { dom, vcpu, request }) => {
            sched::request_in_place(&mut host.system, *frame, dom, vcpu, request)
        }
        Plan::Call(call) => return host.step(call),
    };
    Outcome { answer, count: 0 }
}

fn built_after(built: bool, plan: Plan) -> bool
    ensures { result ≡ built_after built plan }
{
    built || matches!(plan, Plan::Build(_))
}

// ---- a stretch of a script

fn records_in(n: usize) -> usize
    ensures { result ≡ (n + 19) / 20 }
{
    n.div_ceil(records::RECORD)
}

fn room_of(states: bool) -> usize
    ensures { result ≡ room states }
{
    if states {
        ENTRY_ROOM
    } else {
        text::ANSWER_ROOM
    }
}

// The bytes after the first n records.
fn after(bytes: &[u8], n: usize) -> &[u8]
    requires { n * 20 ≤ length bytes.now }
    ensures { result.now ≡ drop (n * 20) bytes.now }
{
    &bytes[n * records::RECORD..]
}

impl Script {
    // The record at the start of the bytes: what it says is done, and its line is put at index `at`, with the host
    // where it is asked for and there is one. The answer is the index past that.
    fn obey(
        &mut self,
        frame: &mut Frame,
        bytes: &[u8],
        out: &mut [u8],
        at: usize,
        states: bool,
    ) -> usize
        requires framed { IsFrameOf self.old.host frame.old }
        requires fits { at + room states ≤ length out.old }
        ensures next { self.new ≡ script_next self.old bytes.now }
        ensures placed { Placed out.old at (entry states self.old bytes.now) out.new result }
        ensures framed { IsFrameOf self.new.host frame.new }
    {
        let plan = records::plan_of(self.built, bytes);
        let told = carry(&mut self.host, frame, plan);
        self.number = self.number.wrapping_add(1);
        self.built = built_after(self.built, plan);
        let number = system::number_of(told.answer);
        let past = text::put_answer_line(out, at, self.number, number, told.count as u64);
        if states && self.built {
            host_text::put_host(out, past, &self.host.system, &self.host.scheduler)
        } else {
            past
        }
    }

    /// Takes as many records as there are and as there is room for: 63 bytes for each, or 28,700 where
    /// the states are asked for.
    pub fn replay(&mut self, bytes: &[u8], out: &mut [u8], states: bool) -> Taken
        ensures { Replayed states self.old bytes.now (taken states bytes.now out.old) out.old self.new result out.new }
    {
        let records = records_in(bytes.len()).min(out.len() / room_of(states));
        // the host is tested once, for its frame, and not for each record
        let mut frame = frame_of(&self.host);
        let mut written = 0;
        for i in 0..records {
            written = self.obey(&mut frame, after(bytes, i), out, written, states);
        }
        Taken { records, written }
    }
}

// ---- records that are no call

fn is_no_call(plan: Plan) -> bool
    ensures { result ≡ is_no_call plan }
{
    matches!(plan, Plan::Refuse(Answer::BadScript))
}

/// The first of these records that is told 9, counted from 0: it is of no kind, or cut off, or comes before any host is built. As
/// many as there are where none is.
pub fn first_no_call(built: bool, bytes: &[u8]) -> usize
    ensures within { result ≤ records_in bytes.now }
    ensures before { (k : ℕ) → k < result → no_call_at built bytes.now k ≡ false }
    ensures found { result < records_in bytes.now → no_call_at built bytes.now result ≡ true }
{
    let n = records_in(bytes.len());
    let mut there = built;
    for i in 0..n {
        let plan = records::plan_of(there, after(bytes, i));
        if is_no_call(plan) {
            return i;
        }
        there = built_after(there, plan);
    }
    n
}
