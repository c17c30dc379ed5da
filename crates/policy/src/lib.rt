//! The policy's records: each vCPU's weight, the service added when it joined the pool, and the
//! snapshot of the pool; how these are set and looked up, and how an accounting renews them.

#![tactic(auto)]

ghost use Rattle.std.specs.Prelude.{◌≡◌, ◌/◌, ◌%◌, ◌&&◌, IfErr};
ghost use Rattle.system.specs.declared.Answer.TheVariants.{TooLarge};
ghost use Rattle.service.specs.Service.{held};
ghost use Rattle.system.specs.Slots.{slots};
ghost use Rattle.policy.specs.Accounts.{raised, covers, account_of, used_weight, weight_of, set_weight, set_wake_boost};
ghost use Rattle.policy.specs.Accounts.{built_outcome, built_policy};
ghost use Rattle.policy.specs.Standing.{service_of};
ghost use Rattle.policy.specs.Accounting.{floor, accounted};
ghost use Rattle.policy.specs.OneAccount.{joins, some_join, undercuts, leader, share_of, lifted_to, renewed_at, renew_by};

use service::Service;
use system::{Answer, DomId, System, Ticks, Vcpu, VirtualCpu};

/// A vCPU's proportional share.
pub type Weight = u32;

/// The least weight that is used.
pub const MIN_WEIGHT: Weight = 1;
/// The weight of a vCPU that none was set for, as in Xen's credit scheduler.
pub const DEFAULT_WEIGHT: Weight = 256;

/// What the policy keeps of one vCPU.
#[derive(Clone, Copy)]
pub struct Account {
    pub weight: Weight,
    /// Service added for ranking: what placed a waker at the floor.
    pub offset: Service,
    /// Whether it was Runnable or Running at the last accounting.
    pub was_schedulable: bool,
}

/// A scheduling policy, of a shape of its own. vCPU d/v stands at d × 8 + v.
#[derive(Clone, Copy)]
pub struct Scheduler {
    pub domain_count: usize,
    pub vcpus_per_domain: usize,
    pub accounts: [Account; 128],
    /// Ticks after which a runner may be preempted.
    pub quantum: Ticks,
    pub wake_boost: bool,
}

// The service and weight of whoever leads the scan for the floor so far.
#[derive(Clone, Copy)]
struct Share {
    service: Service,
    weight: Weight,
}

// A weight, at least the least.
fn raised(weight: Weight) -> Weight
    ensures { result ≡ raised weight }
{
    weight.max(MIN_WEIGHT)
}

/// A vCPU's service: its run time up to the reading, and the offset.
pub fn service_of(v: &VirtualCpu, a: &Account, now: Ticks) -> Service
    ensures { result ≡ held (service_of v.now a.now now) }
{
    service::sum(v.runtime_until(now), a.offset)
}

impl Share {
    // Whether it comes before the floor so far: strictly, so that the earliest leads.
    fn undercuts(&self, best: Option<Share>) -> bool
        ensures { result ≡ undercuts self.now best }
    {
        let Some(led) = best else {
            return true;
        };
        service::more_deserving(self.service, self.weight, led.service, led.weight)
    }

    // The offset that places a vCPU at this floor: what the floor's service is worth at the vCPU's weight,
    // less what it ran.
    fn lifted(&self, weight: Weight, runtime: Ticks) -> Service
        ensures { result ≡ lifted_to self.now weight runtime }
    {
        let worth = service::quotient(service::product(self.service, weight), self.weight);
        service::difference(worth, service::from_u64(runtime))
    }
}

impl Account {
    /// The account of a vCPU for which nothing was done, and of one outside the shape.
    pub const PLAIN: Account = Account {
        weight: DEFAULT_WEIGHT,
        offset: [0; 4],
        was_schedulable: false,
    };

    /// The weight that is used: one of 0, in a damaged policy, reads as the least.
    pub fn used_weight(&self) -> Weight
        ensures { result ≡ used_weight self.now }
    {
        raised(self.weight)
    }

    // Whether the vCPU joined the pool: it is in it, and was not at the last snapshot.
    fn joins(&self, v: &VirtualCpu) -> bool
        ensures { result ≡ joins v.now self.now }
    {
        v.state.is_schedulable() && !self.was_schedulable
    }

    // Who leads once the vCPU was compared: only one in the pool now and at the last snapshot can.
    fn leader(&self, v: &VirtualCpu, best: Option<Share>, now: Ticks) -> Option<Share>
        ensures { result ≡ leader best v.now self.now now }
    {
        if v.state.is_schedulable() && self.was_schedulable {
            let share = Share {
                service: service_of(v, self, now),
                weight: self.used_weight(),
            };
            if share.undercuts(best) {
                return Some(share);
            }
        }
        best
    }

    // Renews the snapshot, and places one that joined the pool at the floor, if there is one.
    fn renew(&mut self, v: &VirtualCpu, floor: Option<Share>)
        ensures { self.new ≡ renewed_at v.now self.old floor }
    {
        if let Some(share) = floor {
            if self.joins(v) {
                self.offset = share.lifted(self.used_weight(), v.runtime);
            }
        }
        self.was_schedulable = v.state.is_schedulable();
    }
}

impl Scheduler {
    /// A policy of that shape, boost on. One above the sizes is refused.
    #[tactic(auto, unfolding(crate::specs::Accounts::fresh_policy))]
    pub fn new(
        num_domains: usize,
        vcpus_per_domain: usize,
        quantum: Ticks,
    ) -> Result<Scheduler, Answer>
        ensures built { built_outcome result ≡ built_policy num_domains vcpus_per_domain quantum }
        ensures refused { IfErr result (λ a. a ≡ TooLarge) }
    {
        if !system::within_sizes(num_domains, vcpus_per_domain, 0) {
            return Err(Answer::TooLarge);
        }
        Ok(Scheduler {
            domain_count: num_domains,
            vcpus_per_domain,
            accounts: [Account::PLAIN; 128],
            quantum,
            wake_boost: true,
        })
    }

    // Whether dom/vcpu is in the shape; a damaged count is held at its size.
    fn covers(&self, dom: usize, vcpu: usize) -> bool
        ensures { result ≡ covers self.now dom vcpu }
    {
        dom < self.domain_count.min(system::MAX_DOMAINS)
            && vcpu < self.vcpus_per_domain.min(system::MAX_VCPUS)
    }

    // The account of dom/vcpu; outside the shape that of a vCPU for which nothing was done.
    fn account_of(&self, dom: usize, vcpu: usize) -> Account
        ensures { result ≡ account_of self.now dom vcpu }
    {
        if self.covers(dom, vcpu) {
            self.accounts[dom * 8 + vcpu]
        } else {
            Account::PLAIN
        }
    }

    /// The account of the vCPU at slot `i`; outside the shape that of one for which nothing was done.
    pub fn account_at(&self, i: usize) -> Account
        ensures { result ≡ account_of self.now (i / 8) (i % 8) }
    {
        self.account_of(i / 8, i % 8)
    }

    /// The weight of a vCPU; the default outside the shape.
    pub fn weight_of(&self, dom: DomId, vcpu: Vcpu) -> Weight
        ensures { result ≡ weight_of self.now dom vcpu }
    {
        self.account_of(dom as usize, vcpu as usize).used_weight()
    }

    /// Another weight for a vCPU, at least the least; ids outside the shape are ignored.
    pub fn set_weight(&mut self, dom: DomId, vcpu: Vcpu, weight: Weight)
        ensures { self.new ≡ set_weight self.old dom vcpu weight }
    {
        let d = dom as usize;
        let v = vcpu as usize;
        if self.covers(d, v) {
            self.accounts[d * 8 + v].weight = raised(weight);
        }
    }

    /// Ticks after which a runner may be preempted.
    pub fn quantum(&self) -> Ticks
        ensures { result ≡ self.now.quantum }
    {
        self.quantum
    }

    /// Boost on or off. All offsets are cleared.
    pub fn set_wake_boost(&mut self, enabled: bool)
        ensures { self.new ≡ set_wake_boost self.old enabled }
    {
        for a in self.accounts.iter_mut() {
            a.offset = [0; 4];
        }
        self.wake_boost = enabled;
    }

    // Whether anybody joined the pool: a look at flags, much cheaper than the search for the floor.
    fn some_joined(&self, s: &System) -> bool
        ensures { result ≡ some_join s.now self.now (slots s.now) }
    {
        let n = s.domain_count() * 8;
        for i in 0..n {
            if i % 8 < s.vcpus_per_domain && self.accounts[i].joins(&s.vcpus[i]) {
                return true;
            }
        }
        false
    }

    // Whether the floor is to be looked for: only where somebody is placed at it.
    fn wants_floor(&self, s: &System) -> bool
        ensures { result ≡ (self.now.wake_boost && some_join s.now self.now (slots s.now)) }
    {
        self.wake_boost && self.some_joined(s)
    }

    // The most deserving of those that stayed in the pool since the last snapshot.
    fn floor(&self, s: &System, now: Ticks) -> Option<Share>
        ensures { result ≡ share_of s.now self.now now (floor s.now self.now now) }
    {
        let n = s.domain_count() * 8;
        let mut best = None;
        for i in 0..n {
            if i % 8 < s.vcpus_per_domain {
                best = self.account_at(i).leader(&s.vcpus[i], best, now);
            }
        }
        best
    }

    // Every account that the shape covers is renewed, with that floor.
    fn renew(&mut self, s: &System, floor: Option<Share>)
        ensures { self.new ≡ renew_by s.now self.old floor (slots s.now) }
    {
        let n = s.domain_count() * 8;
        for i in 0..n {
            if i % 8 < s.vcpus_per_domain && self.covers(i / 8, i % 8) {
                self.accounts[i].renew(&s.vcpus[i], floor);
            }
        }
    }

    /// An accounting: whoever joined the pool is placed at the floor of those that stayed in it, and the
    /// snapshot is renewed.
    pub fn account(&mut self, s: &System, now: Ticks)
        ensures { self.new ≡ accounted s.now self.old now }
    {
        // The floor is that of the old snapshot.
        let floor = if self.wants_floor(s) {
            self.floor(s, now)
        } else {
            None
        };
        self.renew(s, floor);
    }
}
