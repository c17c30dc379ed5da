//! The moves: what to do next, and an advance that does it until nothing is left to do.

#![tactic(auto)]

ghost use Rattle.std.specs.Prelude.{◌≡◌, IfErr, true, length, map};
ghost use Rattle.system.specs.declared.Answer.TheVariants.{Unsound};
ghost use Rattle.system.specs.Slots.{slots};
ghost use Rattle.verdict.specs.Violations.{invariants_hold};
ghost use Rattle.moves.specs.Settling.{choice_of};
ghost use Rattle.rules.specs.Settle.{settle, limit};
ghost use Rattle.settling.specs.AfterMoves.{after_moves};
ghost use Rattle.settling.specs.IdleSet.{idle_set};
ghost use Rattle.settling.specs.TableOf.{TableOf};
ghost use Rattle.advance.specs.ServiceRule.{rule_of};
ghost use Rattle.advance.specs.Tabulated.{service_row};
ghost use Rattle.advance.specs.Advance.{next, advance};
ghost use Rattle.advance.specs.Outcomes.{named_as, next_outcome, advance_outcome, counted};
ghost use Rattle.advance.specs.Survey.{survey_with, may_move, Seen};

use moves::{Choice, Move, Row, Standing, Table};
use policy::{Account, Scheduler};
use system::{Answer, DomId, Pcpu, PhysicalCpu, RunState, System, Ticks, Vcpu, VirtualCpu};

/// What `next` recommends.
// No Option: upstream's three outcomes, and the promises speak of Idle.
#[derive(Clone, Copy, PartialEq, Eq)]
pub enum Decision {
    Run { dom: DomId, vcpu: Vcpu, pcpu: Pcpu },
    Preempt { dom: DomId, vcpu: Vcpu, pcpu: Pcpu },
    Idle,
}

/// What a call is told, and how many moves it enacted.
// No Result: a script's line has both numbers, 0 moves beside a refusal.
#[derive(Clone, Copy, PartialEq, Eq)]
pub struct Outcome {
    pub answer: Answer,
    pub count: usize,
}

// ---- what to do next

// What a decision goes by, of a vCPU with its account. Nobody is barred.
fn row_of(v: &VirtualCpu, a: &Account, present: bool, quantum: Ticks, now: Ticks) -> Row
    ensures { result ≡ service_row v.now a.now present quantum now }
{
    let standing = settling::standing_of(v, present, false, quantum, now);
    let leaving = match standing {
        Standing::Rests => return Row::RESTING,
        Standing::Waits => [0; 4],
        Standing::Expired { .. } => {
            let left = changes::left(*v, RunState::Runnable, now);
            policy::service_of(&left, a, now)
        }
    };
    let service = policy::service_of(v, a, now);
    settling::row_of(standing, a.used_weight(), service, leaving, v)
}

// The rows of a system's slots.
fn tabulate(table: &mut Table, s: &System, p: &Scheduler, now: Ticks)
    ensures { TableOf s.now (rule_of p.now) now table.new (slots s.now) }
{
    let k = s.vcpus_per_domain();
    for i in 0..s.domain_count() * 8 {
        table[i] = row_of(&s.vcpus[i], &p.account_at(i), i % 8 < k, p.quantum, now);
    }
}

impl From<Choice> for Decision {
    ghost from_gives = { λ c d. d ≡ named_as c };

    // % 16 keeps the casts in range without a precondition.
    fn from(c: Choice) -> Decision {
        match c {
            Choice::Run { at, pcpu } => Decision::Run {
                dom: (at / 8 % 16) as u16,
                vcpu: (at % 8) as u32,
                pcpu,
            },
            Choice::Preempt { at, pcpu } => Decision::Preempt {
                dom: (at / 8 % 16) as u16,
                vcpu: (at % 8) as u32,
                pcpu,
            },
            Choice::Rest => Decision::Idle,
        }
    }
}

/// What to do next: dispatch a vCPU that waits onto an idle pCPU, else preempt one, else nothing.
pub fn next(s: &System, p: &Scheduler, now: Ticks) -> Result<Decision, Answer>
    ensures recommended { next_outcome result ≡ next s.now p.now now }
    ensures refused { IfErr result (λ a. a ≡ Unsound) }
{
    if !verdict::invariants_hold(s) {
        return Err(Answer::Unsound);
    }
    let mut table = *moves::resting();
    tabulate(&mut table, s, p, now);
    let idle = settling::idle_set(&s.pcpus, s.pcpu_count);
    let choice = moves::decide(&table, s.domain_count() * 8, idle);
    Ok(Decision::from(choice))
}

// ---- an advance

// What there is to do, by the vCPUs that were looked at.
#[derive(Clone, Copy)]
struct Survey {
    // Some vCPU joined the pool since the last accounting, or left it.
    changed: bool,
    // Some vCPU waits.
    waits: bool,
    // Some vCPU has held its pCPU for the slice.
    expired: bool,
}

impl Survey {
    const NOTHING: Survey = Survey {
        changed: false,
        waits: false,
        expired: false,
    };

    // What was seen once a vCPU was looked at too.
    fn with(self, v: &VirtualCpu, a: &Account, quantum: Ticks, now: Ticks) -> Survey
        ensures { result ≡ survey_with self v.now a.now quantum now }
    {
        let expires = v.state.is_running() && quantum <= v.elapsed(now);
        Survey {
            changed: v.state.is_schedulable() != a.was_schedulable || self.changed,
            waits: matches!(v.state, RunState::Runnable) || self.waits,
            expired: expires || self.expired,
        }
    }

    // Whether a move may be possible: none is unless somebody waits, and a pCPU is idle or may be freed.
    fn may_move(self, idle: u64) -> bool
        ensures { result ≡ may_move self idle }
    {
        self.waits && (idle != 0 || self.expired)
    }
}

// What an advance of a system has to do, by one look at each vCPU. That the table of accounts is whole is said for the caller, to
// whom the policy behind its reference does not say so.
fn surveyed(s: &System, accounts: &[Account; 128], quantum: Ticks, now: Ticks) -> Survey
    ensures seen { Seen s.now accounts.now quantum now result (slots s.now) }
    ensures long { length accounts.now ≡ 128 }
{
    let k = s.vcpus_per_domain();
    let mut survey = Survey::NOTHING;
    for i in 0..s.domain_count() * 8 {
        if i % 8 < k {
            survey = survey.with(&s.vcpus[i], &accounts[i], quantum, now);
        }
    }
    survey
}

// Does the moves to the system.
fn enact(s: &mut System, log: &[Move], now: Ticks)
    ensures { s.new ≡ after_moves s.old now (map choice_of log.now) }
{
    for m in log {
        let c = Choice::from(*m);
        let at = settling::slot_in(c);
        s.vcpus[at] = settling::record_after(c, s.vcpus[at], now);
        s.pcpus[settling::onto_in(c) as usize] = PhysicalCpu {
            occupant: settling::occupant_after(c),
        };
    }
}

// Moves until nothing is left to do; the answer is how many moves that took.
fn settle(s: &mut System, p: &Scheduler, idle: u64, now: Ticks) -> usize
    requires sound { invariants_hold s.old ≡ true }
    requires idle { idle ≡ idle_set s.old }
    ensures system { s.new ≡ (settle (rule_of p.now) now (limit s.old) s.old).system }
    ensures count { result ≡ length (settle (rule_of p.now) now (limit s.old) s.old).moves }
{
    let mut table = *moves::resting();
    tabulate(&mut table, s, p, now);
    let mut log = moves::BLANK;
    let most = settling::most_moves(s.domain_count, s.vcpus_per_domain, s.pcpu_count);
    let n = s.domain_count() * 8;
    let count = moves::settle(&mut table, &mut log, n, idle, most, p.quantum);
    enact(s, &log[..count], now);
    count
}

/// Accounts, then does what is next until nothing is.
pub fn advance(s: &mut System, p: &mut Scheduler, now: Ticks) -> Outcome
    ensures { advance_outcome result s.new p.new ≡ counted (advance s.old p.old now) }
{
    if !verdict::invariants_hold(s) {
        return Outcome {
            answer: Answer::Unsound,
            count: 0,
        };
    }
    let survey = surveyed(s, &p.accounts, p.quantum, now);
    if survey.changed {
        p.account(s, now);
    }
    let idle = settling::idle_set(&s.pcpus, s.pcpu_count);
    let count = if survey.may_move(idle) {
        settle(s, p, idle, now)
    } else {
        0
    };
    Outcome {
        answer: Answer::Done,
        count,
    }
}
