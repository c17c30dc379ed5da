//! The scheduler's records: where each vCPU is, how long it ran, and who holds each pCPU; how a
//! system is built, and what can be read of one. Reads answer on a damaged system too.

#![tactic(auto)]

ghost use Rattle.std.specs.Prelude.{◌≡◌, ◌^◌, ◌<◌, true, false, IfErr};
ghost use Rattle.service.specs.Service.{value, held};
ghost use Rattle.system.specs.Answers.{told};
ghost use Rattle.system.specs.declared.Answer.TheVariants.{TooLarge};
ghost use Rattle.system.specs.Records.{elapsed, in_flight, runtime_until};
ghost use Rattle.system.specs.Shape.{within_sizes, built_outcome, built_system};
ghost use Rattle.system.specs.States.{while_running, schedulable};
ghost use Rattle.system.specs.Reads.{vcpu_count, is_idle, vcpu_of, state_of, is_running, runtime_of, on_cpu_since};
ghost use Rattle.system.specs.Reads.{occupant_of, affinity_of, affinity_permits, full_affinity, busy_pcpus};
ghost use Rattle.system.specs.Slots.{domains, vcpus, pcpus, slot_read};

use service::Service;

/// A domain id: an index into the system's domains.
// Domain and vCPU stand as two parameters, as in upstream's signatures, which are promised one by one.
pub type DomId = u16;
/// A vCPU id within its domain.
pub type Vcpu = u32;
/// A pCPU id.
pub type Pcpu = u32;
/// A clock reading.
pub type Ticks = u64;

/// What a vCPU is doing.
#[derive(Clone, Copy, PartialEq, Eq)]
pub enum RunState {
    /// Not schedulable: never admitted, or taken down again.
    Offline,
    /// Waiting for a pCPU.
    Runnable,
    /// Executing on this pCPU, whose occupant names the vCPU back.
    Running { pcpu: Pcpu },
    /// Waiting for an event.
    Blocked,
}

/// One vCPU.
#[derive(Clone, Copy)]
pub struct VirtualCpu {
    pub state: RunState,
    /// Ticks on pCPUs, over closed intervals.
    pub runtime: Ticks,
    /// When the present interval began; of meaning only while Running.
    pub dispatched_at: Ticks,
    /// Hard affinity: bit p admits pCPU p.
    pub affinity: u64,
    /// The pCPU that it was last dispatched onto since it was last Offline, or `NO_PCPU`.
    // A number and no Option: a mask admits none from 64 up, so that it is tested as any other, whatever a damaged record holds.
    pub last: Pcpu,
}

/// Who holds a pCPU.
// No Option of the ids: `Idle` says what `None` would not, and each of the two has its name in what is promised.
#[derive(Clone, Copy, PartialEq, Eq)]
pub enum Occupant {
    Idle,
    Vcpu { dom: DomId, vcpu: Vcpu },
}

/// One pCPU.
#[derive(Clone, Copy)]
pub struct PhysicalCpu {
    pub occupant: Occupant,
}

/// The whole system. vCPU d/v stands at d × 8 + v, whatever the counts.
#[derive(Clone, Copy)]
pub struct System {
    pub domain_count: usize,
    pub vcpus_per_domain: usize,
    pub pcpu_count: usize,
    pub vcpus: [VirtualCpu; 128],
    pub pcpus: [PhysicalCpu; 64],
}

/// What a call is told. The number by which an answer is told is its own.
// One list, with 0 for done: a line of a script is written from it.
#[derive(Clone, Copy, PartialEq, Eq)]
pub enum Answer {
    Done = 0,
    BadDomain = 1,
    BadVcpu = 2,
    BadPcpu = 3,
    FoundRunnable = 4,
    PcpuBusy = 5,
    NotAffine = 6,
    TooLarge = 7,
    Unsound = 8,
    BadScript = 9,
    FoundOffline = 10,
    FoundRunning = 11,
    FoundBlocked = 12,
    BadFile = 13,
    NotInFile = 14,
    BadSeed = 15,
}

/// The number by which an answer is told.
pub fn number_of(answer: Answer) -> u64
    ensures { result ≡ told answer }
{
    answer as u64
}

/// The most domains of a system.
pub const MAX_DOMAINS: usize = 16;
/// The most vCPUs of a domain.
pub const MAX_VCPUS: usize = 8;
/// The most pCPUs of a system.
pub const MAX_PCPUS: usize = 64;
/// What stands for no pCPU: a mask admits none from 64 up.
pub const NO_PCPU: Pcpu = 64;

impl VirtualCpu {
    /// What every record starts from; whoever makes one puts the full mask in.
    pub const OFFLINE: VirtualCpu = VirtualCpu {
        state: RunState::Offline,
        runtime: 0,
        dispatched_at: 0,
        affinity: 0,
        last: NO_PCPU,
    };
}

impl PhysicalCpu {
    pub const IDLE: PhysicalCpu = PhysicalCpu {
        occupant: Occupant::Idle,
    };
}

impl Occupant {
    /// Whether nobody holds the pCPU.
    pub fn is_idle(self) -> bool
        ensures { result ≡ is_idle self }
    {
        matches!(self, Occupant::Idle)
    }
}

impl RunState {
    /// Whether a vCPU in this state is Running, on any pCPU.
    pub fn is_running(self) -> bool
        ensures { result ≡ while_running self (λ p. true) false }
    {
        matches!(self, RunState::Running { .. })
    }

    /// Whether a vCPU in this state is in the pool: Runnable or Running.
    pub fn is_schedulable(self) -> bool
        ensures { result ≡ schedulable self }
    {
        matches!(self, RunState::Runnable | RunState::Running { .. })
    }
}

impl VirtualCpu {
    /// How long its present interval has lasted; 0 where the clock ran back.
    pub fn elapsed(&self, now: Ticks) -> u64
        ensures { result ≡ elapsed self.now now }
    {
        now.saturating_sub(self.dispatched_at)
    }

    /// The part of its service that is in flight: that interval, while it is Running.
    #[tactic(auto, unfolding(crate::specs::Records::in_flight))]
    pub fn in_flight(&self, now: Ticks) -> u64
        ensures { result ≡ in_flight self.now now }
    {
        match self.state {
            RunState::Running { .. } => self.elapsed(now),
            _ => 0,
        }
    }

    /// Its run time up to a reading: over closed intervals, and the part in flight. It is exact: of two
    /// numbers of 64 bits nothing is held.
    pub fn runtime_until(&self, now: Ticks) -> Service
        ensures held { result ≡ held (runtime_until self.now now) }
        ensures exact { value result ≡ runtime_until self.now now }
        ensures bound { runtime_until self.now now < 2 ^ 65 }
    {
        let closed = service::from_u64(self.runtime);
        let open = service::from_u64(self.in_flight(now));
        service::sum(closed, open)
    }
}

/// Whether a host may have that shape.
pub fn within_sizes(num_domains: usize, vcpus_per_domain: usize, num_pcpus: usize) -> bool
    ensures { result ≡ within_sizes num_domains vcpus_per_domain num_pcpus }
{
    num_domains <= MAX_DOMAINS && vcpus_per_domain <= MAX_VCPUS && num_pcpus <= MAX_PCPUS
}

/// The slot of vCPU dom/vcpu; of any ids an index of the table.
pub fn slot_read(dom: DomId, vcpu: Vcpu) -> usize
    ensures { result ≡ slot_read dom vcpu }
{
    (dom % 16) as usize * 8 + (vcpu % 8) as usize
}

impl System {
    /// A system of that shape: all vCPUs Offline with every pCPU admitted, all pCPUs idle. One above the sizes is refused.
    #[tactic(auto, unfolding(crate::specs::Shape::fresh))]
    pub fn new(
        num_domains: usize,
        vcpus_per_domain: usize,
        num_pcpus: usize,
    ) -> Result<System, Answer>
        ensures built { built_outcome result ≡ built_system num_domains vcpus_per_domain num_pcpus }
        ensures refused { IfErr result (λ a. a ≡ TooLarge) }
    {
        if !within_sizes(num_domains, vcpus_per_domain, num_pcpus) {
            return Err(Answer::TooLarge);
        }
        let blank = VirtualCpu {
            affinity: masks::full_mask(num_pcpus),
            ..VirtualCpu::OFFLINE
        };
        Ok(System {
            domain_count: num_domains,
            vcpus_per_domain,
            pcpu_count: num_pcpus,
            vcpus: [blank; 128],
            pcpus: [PhysicalCpu::IDLE; 64],
        })
    }

    /// The number of domains; a damaged count is held at its size.
    pub fn domain_count(&self) -> usize
        ensures { result ≡ domains self.now }
    {
        self.domain_count.min(MAX_DOMAINS)
    }

    /// The number of vCPUs of each domain; a damaged count is held at its size.
    pub fn vcpus_per_domain(&self) -> usize
        ensures { result ≡ vcpus self.now }
    {
        self.vcpus_per_domain.min(MAX_VCPUS)
    }

    /// The number of vCPUs of a domain, 0 for a bad id.
    pub fn vcpu_count(&self, dom: DomId) -> usize
        ensures { result ≡ vcpu_count self.now dom }
    {
        if (dom as usize) < self.domain_count() {
            self.vcpus_per_domain()
        } else {
            0
        }
    }

    /// The number of pCPUs; a damaged count is held at its size.
    pub fn pcpu_count(&self) -> usize
        ensures { result ≡ pcpus self.now }
    {
        self.pcpu_count.min(MAX_PCPUS)
    }

    /// A vCPU's record, if the ids are in range.
    #[tactic(auto, unfolding(crate::specs::Reads::vcpu_of, crate::specs::Reads::vcpu_at))]
    pub fn vcpu(&self, dom: DomId, vcpu: Vcpu) -> Option<VirtualCpu>
        ensures { result ≡ vcpu_of self.now dom vcpu }
    {
        let d = dom as usize;
        let u = vcpu as usize;
        if d < self.domain_count() && u < self.vcpus_per_domain() {
            Some(self.vcpus[d * 8 + u])
        } else {
            None
        }
    }

    /// A vCPU's run state, if the ids are in range.
    pub fn state_of(&self, dom: DomId, vcpu: Vcpu) -> Option<RunState>
        ensures { result ≡ state_of self.now dom vcpu }
    {
        Some(self.vcpu(dom, vcpu)?.state)
    }

    /// Whether a vCPU is Running, on any pCPU.
    pub fn is_running(&self, dom: DomId, vcpu: Vcpu) -> bool
        ensures { result ≡ is_running self.now dom vcpu }
    {
        match self.state_of(dom, vcpu) {
            Some(state) => state.is_running(),
            None => false,
        }
    }

    /// A vCPU's run time over closed intervals, if the ids are in range.
    pub fn runtime(&self, dom: DomId, vcpu: Vcpu) -> Option<Ticks>
        ensures { result ≡ runtime_of self.now dom vcpu }
    {
        Some(self.vcpu(dom, vcpu)?.runtime)
    }

    /// When a vCPU's present interval began, if it is Running.
    pub fn on_cpu_since(&self, dom: DomId, vcpu: Vcpu) -> Option<Ticks>
        ensures { result ≡ on_cpu_since self.now dom vcpu }
    {
        let v = self.vcpu(dom, vcpu)?;
        if v.state.is_running() {
            Some(v.dispatched_at)
        } else {
            None
        }
    }

    /// Who holds a pCPU; nobody holds one out of range.
    #[tactic(auto, unfolding(crate::specs::Reads::occupant_at))]
    pub fn occupant(&self, pcpu: Pcpu) -> Occupant
        ensures { result ≡ occupant_of self.now pcpu }
    {
        let p = pcpu as usize;
        if p < self.pcpu_count() {
            self.pcpus[p].occupant
        } else {
            Occupant::Idle
        }
    }

    /// A vCPU's mask, if the ids are in range.
    pub fn affinity_of(&self, dom: DomId, vcpu: Vcpu) -> Option<u64>
        ensures { result ≡ affinity_of self.now dom vcpu }
    {
        Some(self.vcpu(dom, vcpu)?.affinity)
    }

    /// Whether a vCPU's mask admits a pCPU; never for ids out of range.
    pub fn affinity_permits(&self, dom: DomId, vcpu: Vcpu, pcpu: Pcpu) -> bool
        ensures { result ≡ affinity_permits self.now dom vcpu pcpu }
    {
        if (pcpu as usize) >= self.pcpu_count() {
            return false;
        }
        match self.affinity_of(dom, vcpu) {
            Some(mask) => masks::mask_permits(mask, pcpu),
            None => false,
        }
    }

    /// The mask that admits every pCPU of the system.
    pub fn full_affinity(&self) -> u64
        ensures { result ≡ full_affinity self.now }
    {
        masks::full_mask(self.pcpu_count)
    }

    /// The number of pCPUs that somebody holds.
    #[tactic(auto, unfolding(crate::specs::Reads::count))]
    pub fn busy_pcpus(&self) -> usize
        ensures { result ≡ busy_pcpus self.now }
    {
        let n = self.pcpu_count();
        let mut busy = 0;
        for p in 0..n {
            busy += !self.pcpus[p].occupant.is_idle() as usize;
        }
        busy
    }
}
