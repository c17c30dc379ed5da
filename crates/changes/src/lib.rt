//! What a request does to one vCPU, by its record alone: whether it is refused, and with which record it
//! stays, goes onto a pCPU or leaves one. Nothing here reads a system.

#![tactic(auto)]

ghost use Rattle.std.specs.Prelude.{◌≡◌};
ghost use Rattle.changes.specs.Records.{dispatched, left, forgotten};
ghost use Rattle.changes.specs.Changes.{found_in, admitted, ran, preempted, blocked, woken, masked, offlined};
ghost use Rattle.changes.specs.Changes.{changed, reaches, kept, stored};

use calls::Request;
use system::{Answer, NO_PCPU, Occupant, Pcpu, PhysicalCpu, RunState, Ticks, VirtualCpu};

/// What a request that is not refused does to its vCPU: the record is written anew, as the vCPU goes onto
/// a pCPU or leaves one too.
#[derive(Clone, Copy)]
pub enum Change {
    Write(VirtualCpu),
    Enter { vcpu: VirtualCpu, pcpu: Pcpu },
    Leave { vcpu: VirtualCpu, pcpu: Pcpu },
}

// ---- a vCPU's record made anew

/// The vCPU put onto a pCPU: its interval opens, and that pCPU is the one that it was last on.
#[tactic(auto, unfolding(crate::specs::Records::dispatched))]
pub fn dispatched(v: VirtualCpu, pcpu: Pcpu, now: Ticks) -> VirtualCpu
    ensures { result ≡ dispatched v pcpu now }
{
    VirtualCpu {
        state: RunState::Running { pcpu },
        dispatched_at: now,
        last: pcpu,
        ..v
    }
}

/// The vCPU taken off its pCPU: its interval closes.
#[tactic(auto, unfolding(crate::specs::Records::left))]
pub fn left(v: VirtualCpu, state: RunState, now: Ticks) -> VirtualCpu
    ensures { result ≡ left v state now }
{
    VirtualCpu {
        state,
        runtime: v.runtime.saturating_add(v.elapsed(now)),
        ..v
    }
}

// A vCPU admitted later carries nothing of its past: every pCPU is admitted, and it was last on none.
fn forgotten(v: VirtualCpu, full: u64) -> VirtualCpu
    ensures { result ≡ forgotten v full }
{
    VirtualCpu {
        affinity: full,
        last: NO_PCPU,
        ..v
    }
}

// ---- what each request does

// What is told of a vCPU found in a state that the call does not accept.
fn found_in(state: RunState) -> Answer
    ensures { result ≡ found_in state }
{
    match state {
        RunState::Offline => Answer::FoundOffline,
        RunState::Runnable => Answer::FoundRunnable,
        RunState::Running { .. } => Answer::FoundRunning,
        RunState::Blocked => Answer::FoundBlocked,
    }
}

fn admitted(v: VirtualCpu) -> Result<Change, Answer>
    ensures { result ≡ admitted v v.state }
{
    match v.state {
        RunState::Offline => Ok(Change::Write(VirtualCpu {
            state: RunState::Runnable,
            ..v
        })),
        _ => Err(found_in(v.state)),
    }
}

// Who holds the pCPU is tested later, by `stored`: an off-mask dispatch has one reason, whoever is there.
#[tactic(auto, unfolding(crate::specs::Records::dispatched))]
fn ran(v: VirtualCpu, pcpu: Pcpu, now: Ticks) -> Result<Change, Answer>
    ensures { result ≡ ran v pcpu now v.state }
{
    match v.state {
        RunState::Runnable if !masks::mask_permits(v.affinity, pcpu) => Err(Answer::NotAffine),
        RunState::Runnable => Ok(Change::Enter {
            vcpu: dispatched(v, pcpu, now),
            pcpu,
        }),
        _ => Err(found_in(v.state)),
    }
}

fn preempted(v: VirtualCpu, now: Ticks) -> Result<Change, Answer>
    ensures { result ≡ preempted v now v.state }
{
    match v.state {
        RunState::Running { pcpu } => Ok(Change::Leave {
            vcpu: left(v, RunState::Runnable, now),
            pcpu,
        }),
        _ => Err(found_in(v.state)),
    }
}

fn blocked(v: VirtualCpu, now: Ticks) -> Result<Change, Answer>
    ensures { result ≡ blocked v now v.state }
{
    match v.state {
        RunState::Runnable => Ok(Change::Write(VirtualCpu {
            state: RunState::Blocked,
            ..v
        })),
        RunState::Running { pcpu } => Ok(Change::Leave {
            vcpu: left(v, RunState::Blocked, now),
            pcpu,
        }),
        _ => Err(found_in(v.state)),
    }
}

fn woken(v: VirtualCpu) -> Result<Change, Answer>
    ensures { result ≡ woken v v.state }
{
    match v.state {
        RunState::Blocked => Ok(Change::Write(VirtualCpu {
            state: RunState::Runnable,
            ..v
        })),
        _ => Err(found_in(v.state)),
    }
}

// A new mask is refused where it would strand the vCPU on its pCPU.
fn masked(v: VirtualCpu, mask: u64) -> Result<Change, Answer>
    ensures { result ≡ masked v mask v.state }
{
    match v.state {
        RunState::Running { pcpu } if !masks::mask_permits(mask, pcpu) => Err(Answer::NotAffine),
        _ => Ok(Change::Write(VirtualCpu {
            affinity: mask,
            ..v
        })),
    }
}

fn offlined(v: VirtualCpu, full: u64, now: Ticks) -> Result<Change, Answer>
    ensures { result ≡ offlined v full now v.state }
{
    let down = RunState::Offline;
    match v.state {
        RunState::Offline => Err(found_in(v.state)),
        RunState::Running { pcpu } => Ok(Change::Leave {
            vcpu: forgotten(left(v, down, now), full),
            pcpu,
        }),
        RunState::Runnable | RunState::Blocked => {
            Ok(Change::Write(forgotten(VirtualCpu { state: down, ..v }, full)))
        }
    }
}

/// What a request does to the vCPU whose record is `v`, on a host of so many pCPUs, or why it is refused:
/// a new mask is clipped to the pCPUs.
pub fn changed(request: Request, v: VirtualCpu, pcpu_count: usize) -> Result<Change, Answer>
    ensures { result ≡ changed request pcpu_count v }
{
    match request {
        Request::Admit => admitted(v),
        Request::Run { pcpu, now } => ran(v, pcpu, now),
        Request::Preempt { now } => preempted(v, now),
        Request::Block { now } => blocked(v, now),
        Request::Wake => woken(v),
        Request::SetAffinity { mask } => masked(v, masks::clip(mask, pcpu_count)),
        Request::Offline { now } => offlined(v, masks::full_mask(pcpu_count), now),
    }
}

// ---- what a change leaves

/// What a change tells, and what stands after it at the vCPU's slot and at the change's pCPU.
// No Result: a refusal hands both records back, and they are stored with no test.
// The answer stands last: behind it the records would lie across words, and each read of them would wait.
#[derive(Clone, Copy)]
pub struct After {
    pub vcpu: VirtualCpu,
    pub pcpu: PhysicalCpu,
    pub answer: Answer,
}

/// A refusal hands the records back as they are.
pub fn kept(answer: Answer, v: VirtualCpu, c: PhysicalCpu) -> After
    ensures { result ≡ kept answer v c }
{
    After {
        answer,
        vcpu: v,
        pcpu: c,
    }
}

/// A change of the vCPU `who`, or its refusal, where `v` is its record and `c` the change's pCPU.
pub fn stored(change: Result<Change, Answer>, who: Occupant, v: VirtualCpu, c: PhysicalCpu) -> After
    ensures { result ≡ stored change who v c }
{
    let answer = Answer::Done;
    match change {
        Err(refusal) => kept(refusal, v, c),
        Ok(Change::Write(vcpu)) => After {
            answer,
            vcpu,
            pcpu: c,
        },
        Ok(Change::Enter { .. }) if !c.occupant.is_idle() => kept(Answer::PcpuBusy, v, c),
        Ok(Change::Enter { vcpu, .. }) => After {
            answer,
            vcpu,
            pcpu: PhysicalCpu { occupant: who },
        },
        Ok(Change::Leave { vcpu, .. }) => After {
            answer,
            vcpu,
            pcpu: PhysicalCpu::IDLE,
        },
    }
}

/// Whether the pCPU that a run asks for is one of so many; the other requests ask for none.
pub fn reaches(request: Request, pcpu_count: usize) -> bool
    ensures { result ≡ reaches request pcpu_count }
{
    match request {
        Request::Run { pcpu, .. } => (pcpu as usize) < pcpu_count,
        _ => true,
    }
}
