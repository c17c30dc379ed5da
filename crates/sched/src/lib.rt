//! The mechanism: the transitions that move vCPUs between run states and pCPUs. Each changes a system in
//! place and answers; a refused call leaves it as it was.

#![tactic(auto)]

ghost use Rattle.std.specs.Prelude.{◌≡◌};
ghost use Rattle.system.specs.Answers.{system_outcome};
ghost use Rattle.verdict.specs.Violations.{invariants_hold};
ghost use Rattle.sched.specs.Steps.{requested, admit, run, preempt, block, wake};
ghost use Rattle.sched.specs.Steps.{set_affinity, offline, offline_all};
ghost use Rattle.sched.specs.RequestInPlace.{pcpu_read, framed, effect_of, in_place};

use calls::Request;
use changes::{After, kept};
use system::{Answer, DomId, Occupant, Pcpu, PhysicalCpu, System, Ticks, Vcpu, VirtualCpu};

// ---- a request by the records that it reads

/// The pCPU that a request may move its vCPU onto or off, as an index of the table: the one a run
/// asks for, else the one that the vCPU is on.
pub fn pcpu_read(request: Request, v: &VirtualCpu) -> usize
    ensures { result ≡ pcpu_read request v.now }
{
    match request {
        Request::Run { pcpu, .. } => (pcpu % 64) as usize,
        _ => verdict::pcpu_index(v),
    }
}

/// What a request needs of a system beside the records that it reads.
// No Option for the counts: an unsound system has them too, and `FrameOf` promises both.
#[derive(Clone, Copy)]
pub struct Frame {
    pub sound: bool,
    pub domain_count: usize,
    pub vcpus_per_domain: usize,
    pub pcpu_count: usize,
}

/// The frame of a system, its soundness found by a test.
pub fn frame_of(s: &System) -> Frame
    ensures { result ≡ framed s.now (invariants_hold s.now) }
{
    Frame {
        sound: verdict::invariants_hold(s),
        domain_count: s.domain_count,
        vcpus_per_domain: s.vcpus_per_domain,
        pcpu_count: s.pcpu_count,
    }
}

/// What a request of vCPU dom/vcpu tells, and what it leaves of the records that it reads.
#[tactic(auto, unfolding(crate::specs::RequestInPlace::effect_of))]
pub fn effect_of(
    frame: Frame,
    dom: DomId,
    vcpu: Vcpu,
    request: Request,
    v: VirtualCpu,
    c: PhysicalCpu,
) -> After
    ensures { result ≡ effect_of frame dom vcpu request v c }
{
    if !frame.sound {
        return kept(Answer::Unsound, v, c);
    }
    if !changes::reaches(request, frame.pcpu_count) {
        return kept(Answer::BadPcpu, v, c);
    }
    if frame.domain_count <= dom as usize {
        return kept(Answer::BadDomain, v, c);
    }
    if frame.vcpus_per_domain <= vcpu as usize {
        return kept(Answer::BadVcpu, v, c);
    }
    let change = changes::changed(request, v, frame.pcpu_count);
    changes::stored(change, Occupant::Vcpu { dom, vcpu }, v, c)
}

/// A request of a system whose frame the caller knows: the two records that it reads are stored as it
/// leaves them.
pub fn request_in_place(
    s: &mut System,
    frame: Frame,
    dom: DomId,
    vcpu: Vcpu,
    request: Request,
) -> Answer
    ensures { system_outcome result s.new ≡ in_place s.old frame dom vcpu request }
{
    let i = system::slot_read(dom, vcpu);
    let v = s.vcpus[i];
    let p = pcpu_read(request, &v);
    let after = effect_of(frame, dom, vcpu, request, v, s.pcpus[p]);
    s.vcpus[i] = after.vcpu;
    s.pcpus[p] = after.pcpu;
    after.answer
}

// ---- the calls

/// One request of one vCPU.
pub fn requested(s: &mut System, dom: DomId, vcpu: Vcpu, request: Request) -> Answer
    ensures { system_outcome result s.new ≡ requested s.old dom vcpu request }
{
    let frame = frame_of(s);
    request_in_place(s, frame, dom, vcpu, request)
}

/// Offline to Runnable.
pub fn admit(s: &mut System, dom: DomId, vcpu: Vcpu) -> Answer
    ensures { system_outcome result s.new ≡ admit s.old dom vcpu }
{
    requested(s, dom, vcpu, Request::Admit)
}

/// Runnable to Running, on an idle pCPU that the mask admits.
pub fn run(s: &mut System, dom: DomId, vcpu: Vcpu, pcpu: Pcpu, now: Ticks) -> Answer
    ensures { system_outcome result s.new ≡ run s.old dom vcpu pcpu now }
{
    requested(s, dom, vcpu, Request::Run { pcpu, now })
}

/// Running to Runnable.
pub fn preempt(s: &mut System, dom: DomId, vcpu: Vcpu, now: Ticks) -> Answer
    ensures { system_outcome result s.new ≡ preempt s.old dom vcpu now }
{
    requested(s, dom, vcpu, Request::Preempt { now })
}

/// Runnable or Running to Blocked.
pub fn block(s: &mut System, dom: DomId, vcpu: Vcpu, now: Ticks) -> Answer
    ensures { system_outcome result s.new ≡ block s.old dom vcpu now }
{
    requested(s, dom, vcpu, Request::Block { now })
}

/// Blocked to Runnable.
pub fn wake(s: &mut System, dom: DomId, vcpu: Vcpu) -> Answer
    ensures { system_outcome result s.new ≡ wake s.old dom vcpu }
{
    requested(s, dom, vcpu, Request::Wake)
}

/// A new mask, clipped to the pCPUs of the system.
pub fn set_affinity(s: &mut System, dom: DomId, vcpu: Vcpu, affinity: u64) -> Answer
    ensures { system_outcome result s.new ≡ set_affinity s.old dom vcpu affinity }
{
    requested(s, dom, vcpu, Request::SetAffinity { mask: affinity })
}

/// Any live state to Offline.
pub fn offline(s: &mut System, dom: DomId, vcpu: Vcpu, now: Ticks) -> Answer
    ensures { system_outcome result s.new ≡ offline s.old dom vcpu now }
{
    requested(s, dom, vcpu, Request::Offline { now })
}

/// Every vCPU of a domain to Offline; those that are Offline stay as they are.
pub fn offline_all(s: &mut System, dom: DomId, now: Ticks) -> Answer
    ensures { system_outcome result s.new ≡ offline_all s.old dom now }
{
    let tested = frame_of(s);
    if !tested.sound {
        return Answer::Unsound;
    }
    // a bad domain has no vCPUs
    if s.domain_count <= dom as usize {
        return Answer::Done;
    }
    for vcpu in 0..s.vcpus_per_domain as u32 {
        request_in_place(s, tested, dom, vcpu, Request::Offline { now });
    }
    Answer::Done
}
