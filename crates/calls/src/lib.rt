//! The calls of a host as data, and what is asked of one vCPU.

#![tactic(auto)]

use system::{DomId, Pcpu, Ticks, Vcpu};

/// What is asked of one vCPU.
#[derive(Clone, Copy)]
pub enum Request {
    Admit,
    Run { pcpu: Pcpu, now: Ticks },
    Preempt { now: Ticks },
    Block { now: Ticks },
    Wake,
    SetAffinity { mask: u64 },
    Offline { now: Ticks },
}

/// A call of a host.
#[derive(Clone, Copy)]
pub enum Call {
    /// A request of one vCPU.
    Ask {
        dom: DomId,
        vcpu: Vcpu,
        request: Request,
    },
    OfflineAll {
        dom: DomId,
        now: Ticks,
    },
    SetWeight {
        dom: DomId,
        vcpu: Vcpu,
        weight: u32,
    },
    SetWakeBoost {
        enabled: bool,
    },
    Advance {
        now: Ticks,
    },
}
