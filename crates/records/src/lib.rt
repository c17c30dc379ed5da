//! A script's record: what its 20 bytes say, and what the script does of it.

#![tactic(auto)]

ghost use Rattle.std.specs.Prelude.{◌≡◌, ◌≤◌, length};
ghost use Rattle.records.specs.Bytes.{put_record};
ghost use Rattle.records.specs.Records.{record_of, record_at, asked, call_of, build_of, after_build, plan_of};

use big_endian::BigEndian;
use calls::{Call, Request};
use system::Answer;

/// The bytes of a record.
pub const RECORD: usize = 20;

/// What a record says.
#[derive(Clone, Copy, PartialEq, Eq, Debug)]
pub struct Record {
    pub kind: u16,
    pub dom: u16,
    pub vcpu: u32,
    pub third: u32,
    pub value: u64,
}

/// The shape and the slice of a host.
#[derive(Clone, Copy, PartialEq, Eq, Debug)]
pub struct Shape {
    pub num_domains: usize,
    pub vcpus_per_domain: usize,
    pub num_pcpus: usize,
    pub quantum: u64,
}

/// What a script does of a record: it is refused, or a host is built, or the host is called.
// No Result: the three cases are promised as one plan.
#[derive(Clone, Copy)]
pub enum Plan {
    Refuse(Answer),
    Build(Shape),
    Call(Call),
}

fn record_of(bytes: &[u8]) -> Record
    requires { 20 ≤ length bytes.now }
    ensures { result ≡ record_of bytes.now }
{
    Record {
        kind: u16::read_at(bytes, 0),
        dom: u16::read_at(bytes, 2),
        vcpu: u32::read_at(bytes, 4),
        third: u32::read_at(bytes, 8),
        value: u64::read_at(bytes, 12),
    }
}

/// What the record at the start of the bytes says; one that is cut off is of no kind.
// No Option: kind 65535, which names no call, is promised of it.
#[tactic(auto, unfolding(crate::specs::Records::record_at))]
pub fn record_at(bytes: &[u8]) -> Record
    ensures { result ≡ record_at bytes.now }
{
    if bytes.len() < RECORD {
        return Record {
            kind: u16::MAX,
            dom: 0,
            vcpu: 0,
            third: 0,
            value: 0,
        };
    }
    record_of(bytes)
}

// A call that asks something of one vCPU.
fn asked(dom: u16, vcpu: u32, request: Request) -> Option<Call>
    ensures { result ≡ asked dom vcpu request }
{
    Some(Call::Ask { dom, vcpu, request })
}

// The call that the kind names, if it names one.
fn call_of(r: Record) -> Option<Call>
    ensures { result ≡ call_of r }
{
    let dom = r.dom;
    let vcpu = r.vcpu;
    // third is a pCPU or a weight, value a clock or a mask
    let pcpu = r.third;
    let weight = r.third;
    let now = r.value;
    let mask = r.value;
    match r.kind {
        1 => asked(dom, vcpu, Request::Admit),
        2 => asked(dom, vcpu, Request::Run { pcpu, now }),
        3 => asked(dom, vcpu, Request::Preempt { now }),
        4 => asked(dom, vcpu, Request::Block { now }),
        5 => asked(dom, vcpu, Request::Wake),
        6 => asked(dom, vcpu, Request::Offline { now }),
        7 => asked(dom, vcpu, Request::SetAffinity { mask }),
        8 => Some(Call::SetWeight { dom, vcpu, weight }),
        9 => Some(Call::Advance { now }),
        10 => Some(Call::SetWakeBoost { enabled: now != 0 }),
        _ => None,
    }
}

fn build_of(r: Record) -> Plan
    ensures { result ≡ build_of r }
{
    let num_domains = r.dom as usize;
    let vcpus_per_domain = r.vcpu as usize;
    let num_pcpus = r.third as usize;
    if system::within_sizes(num_domains, vcpus_per_domain, num_pcpus) {
        Plan::Build(Shape {
            num_domains,
            vcpus_per_domain,
            num_pcpus,
            quantum: r.value,
        })
    } else {
        Plan::Refuse(Answer::TooLarge)
    }
}

// A call wants a host that was built.
fn after_build(built: bool, call: Option<Call>) -> Plan
    ensures { result ≡ after_build built call }
{
    match call {
        Some(call) if built => Plan::Call(call),
        _ => Plan::Refuse(Answer::BadScript),
    }
}

/// What a script does of the record at the start of the bytes that are left; fewer than 20 are a
/// record cut off.
#[tactic(auto, unfolding(crate::specs::Records::plan_of))]
pub fn plan_of(built: bool, bytes: &[u8]) -> Plan
    ensures { result ≡ plan_of built bytes.now }
{
    if bytes.len() < RECORD {
        return Plan::Refuse(Answer::BadScript);
    }
    let r = record_of(bytes);
    if r.kind == 0 {
        return build_of(r);
    }
    after_build(built, call_of(r))
}

// ---- written

/// Writes the 20 bytes of a record from that index on; where there is no room for them, nothing.
pub fn put_record(out: &mut [u8], at: usize, r: Record)
    ensures { out.new ≡ put_record out.old at r }
{
    if out.len() < RECORD {
        return;
    }
    if at > out.len() - RECORD {
        return;
    }
    r.kind.put_at(out, at);
    r.dom.put_at(out, at + 2);
    r.vcpu.put_at(out, at + 4);
    r.third.put_at(out, at + 8);
    r.value.put_at(out, at + 12);
}
