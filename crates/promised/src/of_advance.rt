//! What to do next, and an advance.

ghost use Rattle.page.specs.Advance.{next_told, advance};
ghost use Rattle.page.specs.Handed.{HandsDecision, HandsAdvance};

use advance::{Decision, Outcome};
use policy::Scheduler;
use system::{Answer, System, Ticks};

pub fn next(s: &System, p: &Scheduler, now: Ticks) -> Result<Decision, Answer>
    ensures { HandsDecision result (next_told s.now p.now now) }
{
    advance::next(s, p, now)
}

pub fn advance(s: &mut System, p: &mut Scheduler, now: Ticks) -> Outcome
    ensures { HandsAdvance result s.new p.new (advance s.old p.old now) }
{
    advance::advance(s, p, now)
}
