//! What a domain used up to a clock reading: the run times of its vCPUs, with the parts in flight, added up.

#![tactic(auto)]

ghost use Rattle.std.specs.Prelude.{◌≡◌};
ghost use Rattle.service.specs.Service.{value, held};
ghost use Rattle.usage.specs.Usage.{usage};

use service::Service;
use system::{DomId, System, Ticks};

/// The sum of the run times of a domain's vCPUs up to a reading, 0 for a bad id. It is exact: of eight
/// numbers of 65 bits nothing is held.
pub fn usage(s: &System, dom: DomId, now: Ticks) -> Service
    ensures held { result ≡ held (usage s.now dom now) }
    ensures exact { value result ≡ usage s.now dom now }
{
    let mut total = service::from_u64(0);
    for u in 0..s.vcpu_count(dom) {
        let v = &s.vcpus[dom as usize * 8 + u];
        // named first: a call's result is not laid in a local that holds an array
        let sum = service::sum(total, v.runtime_until(now));
        total = sum;
    }
    total
}
