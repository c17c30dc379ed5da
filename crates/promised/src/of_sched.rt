//! The calls of the mechanism, on a system and in place.

#![tactic(auto, using(crate::proofs::Page::calls))]

ghost use Rattle.std.specs.Prelude.{◌≡◌};
ghost use Rattle.page.specs.Calls.{admit, run, preempt, block, wake, offline, set_affinity, called, offline_all};
ghost use Rattle.page.specs.Handed.{HandsSystem};
ghost use Rattle.page.specs.InPlace.{pcpu_read, FrameOf, InPlace};

use calls::Request;
use changes::After;
use sched::Frame;
use system::{Answer, DomId, Pcpu, PhysicalCpu, System, Ticks, Vcpu, VirtualCpu};

pub fn pcpu_read(request: Request, v: &VirtualCpu) -> usize
    ensures { result ≡ pcpu_read request v.now }
{
    sched::pcpu_read(request, v)
}

pub fn frame_of(s: &System) -> Frame
    ensures { FrameOf s.now result }
{
    sched::frame_of(s)
}

/// On every system of which these are read, storing what is handed back is the call.
pub fn effect_of(
    frame: Frame,
    dom: DomId,
    vcpu: Vcpu,
    request: Request,
    v: VirtualCpu,
    c: PhysicalCpu,
) -> After
    ensures { InPlace dom vcpu request frame v c result }
{
    sched::effect_of(frame, dom, vcpu, request, v, c)
}

/// In the system's own frame it is the call.
pub fn request_in_place(
    s: &mut System,
    frame: Frame,
    dom: DomId,
    vcpu: Vcpu,
    request: Request,
) -> Answer
    ensures { FrameOf s.old frame → HandsSystem result s.new (called s.old dom vcpu request) }
{
    sched::request_in_place(s, frame, dom, vcpu, request)
}

pub fn requested(s: &mut System, dom: DomId, vcpu: Vcpu, request: Request) -> Answer
    ensures { HandsSystem result s.new (called s.old dom vcpu request) }
{
    sched::requested(s, dom, vcpu, request)
}

pub fn admit(s: &mut System, dom: DomId, vcpu: Vcpu) -> Answer
    ensures { HandsSystem result s.new (admit s.old dom vcpu) }
{
    sched::admit(s, dom, vcpu)
}

pub fn run(s: &mut System, dom: DomId, vcpu: Vcpu, pcpu: Pcpu, now: Ticks) -> Answer
    ensures { HandsSystem result s.new (run s.old dom vcpu pcpu now) }
{
    sched::run(s, dom, vcpu, pcpu, now)
}

pub fn preempt(s: &mut System, dom: DomId, vcpu: Vcpu, now: Ticks) -> Answer
    ensures { HandsSystem result s.new (preempt s.old dom vcpu now) }
{
    sched::preempt(s, dom, vcpu, now)
}

pub fn block(s: &mut System, dom: DomId, vcpu: Vcpu, now: Ticks) -> Answer
    ensures { HandsSystem result s.new (block s.old dom vcpu now) }
{
    sched::block(s, dom, vcpu, now)
}

pub fn wake(s: &mut System, dom: DomId, vcpu: Vcpu) -> Answer
    ensures { HandsSystem result s.new (wake s.old dom vcpu) }
{
    sched::wake(s, dom, vcpu)
}

pub fn set_affinity(s: &mut System, dom: DomId, vcpu: Vcpu, affinity: u64) -> Answer
    ensures { HandsSystem result s.new (set_affinity s.old dom vcpu affinity) }
{
    sched::set_affinity(s, dom, vcpu, affinity)
}

pub fn offline(s: &mut System, dom: DomId, vcpu: Vcpu, now: Ticks) -> Answer
    ensures { HandsSystem result s.new (offline s.old dom vcpu now) }
{
    sched::offline(s, dom, vcpu, now)
}

pub fn offline_all(s: &mut System, dom: DomId, now: Ticks) -> Answer
    ensures { HandsSystem result s.new (offline_all s.old dom now) }
{
    sched::offline_all(s, dom, now)
}
