//! What a domain used.

ghost use Rattle.std.specs.Prelude.{◌≡◌};
ghost use Rattle.page.specs.Policy.{number, four};
ghost use Rattle.page.specs.Reads.{usage};

use service::Service;
use system::{DomId, System, Ticks};

/// It is exact: the four limbs hold it whole.
pub fn usage(s: &System, dom: DomId, now: Ticks) -> Service
    ensures limbs { result ≡ four (usage s.now dom now) }
    ensures exact { number result ≡ usage s.now dom now }
{
    usage::usage(s, dom, now)
}
