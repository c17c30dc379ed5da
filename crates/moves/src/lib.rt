//! The decision over a table of standings, and settling: what is decided is done to the table and logged until nothing is
//! decided. The table is lent: a decision copies nothing, and knows neither a system nor a policy.

#![tactic(auto)]

ghost use Rattle.std.specs.Prelude.{◌≡◌, ℕ, ◌+◌, cond, ◌&&◌, ◌<◌, ◌≤◌, ◌%◌, min, length, replicate};
ghost use Rattle.masks.specs.Masks.{permits, first};
ghost use Rattle.moves.specs.Decide.{beaten, decide};
ghost use Rattle.moves.specs.Table.{is_waiting, tabled};
ghost use Rattle.moves.specs.TableWrites.{dispatched_row, left_row};
ghost use Rattle.moves.specs.Settling.{InRange, choice_of, with_pcpu, with_rest, made, table_after, idle_after, settled, logged_first};
ghost use Rattle.moves.specs.Leads.{ahead, goes_before, yields_before, StandsExpired, LeadsChosen, LeadsVictim};

use service::Service;

/// How many slots the table has.
pub const SLOTS: usize = 128;
/// How many moves the log has room for.
pub const LOG: usize = 320;

/// One move, or none, by the slots of the table.
// No Option: three outcomes, as upstream's decision has them.
#[derive(Clone, Copy)]
pub enum Choice {
    Run { at: usize, pcpu: u32 },
    Preempt { at: usize, pcpu: u32 },
    Rest,
}

/// A move as the log holds it: a slot goes onto a pCPU, or comes off it.
// Four bytes, the smaller field first: a log of choices would be six times as large, and is not cleared at once.
#[derive(Clone, Copy)]
pub enum Move {
    Onto { pcpu: u8, at: u16 },
    Off { pcpu: u8, at: u16 },
}

/// What part a slot has in a decision.
#[derive(Clone, Copy)]
pub enum Standing {
    /// None.
    Rests,
    /// It waits for a pCPU.
    Waits,
    /// It runs on this pCPU, and may be preempted.
    Expired { pcpu: u32 },
}

/// What the table has of one slot.
#[derive(Clone, Copy)]
pub struct Row {
    pub standing: Standing,
    pub mask: u64,
    pub service: Service,
    pub weight: u32,
    /// The pCPU that it was last on, or one from 64 up.
    pub last: u32,
    /// Of one that may be preempted: its service once it has left.
    pub leaving: Service,
}

/// A row for each slot.
pub type Table = [Row; SLOTS];
/// Room for the moves of a settling.
pub type Log = [Move; LOG];

// Who leads a scan so far, with what its row has at hand.
#[derive(Clone, Copy)]
struct Leader {
    at: usize,
    pcpu: u32,
    service: Service,
    weight: u32,
}

/// A log in which nothing stands yet.
pub const BLANK: Log = [Move::Onto { pcpu: 0, at: 0 }; LOG];

// ---- the table

// It is lent: an array that is made of the constant is stored row by row, which takes five times as long as a copy.
static RESTING: Table = [Row::RESTING; SLOTS];

/// A table of slots that all rest.
pub fn resting() -> &'static Table
    ensures { result.now ≡ replicate 128 Row.RESTING }
{
    &RESTING
}

impl Row {
    /// Of one that rests nothing else is read.
    pub const RESTING: Row = Row {
        standing: Standing::Rests,
        mask: 0,
        service: [0; 4],
        weight: 0,
        last: 0,
        leaving: [0; 4],
    };

    fn waits(&self) -> bool
        ensures { result ≡ is_waiting self.now.standing }
    {
        matches!(self.standing, Standing::Waits)
    }

    fn leader(&self, at: usize, pcpu: u32) -> Leader
        ensures { result ≡ record { at = at; pcpu = pcpu; service = self.now.service; weight = self.now.weight } }
    {
        Leader {
            at,
            pcpu,
            service: self.service,
            weight: self.weight,
        }
    }

    // The lowest-numbered idle pCPU that the mask admits, or 64.
    fn first_idle_pcpu(&self, idle: u64) -> u32
        ensures { result ≡ first (λ p. permits idle p && permits self.now.mask p) 64 }
    {
        masks::lowest_pcpu(idle & self.mask)
    }

    // Where it goes: back onto the pCPU that it was last on, where that is idle and its mask admits it; else onto the one that
    // was found.
    fn back_to_last(&self, idle: u64, found: u32) -> u32
        ensures { result ≡ cond (permits idle self.now.last && permits self.now.mask self.now.last) self.now.last found }
    {
        if masks::mask_permits(idle & self.mask, self.last) {
            self.last
        } else {
            found
        }
    }

    // It went onto pCPU p: where the slice is 0 it may be preempted at once, and leaves with the service that it came with.
    fn dispatch(&mut self, p: u32, slice: u64)
        ensures { self.new ≡ dispatched_row slice p self.old }
    {
        self.last = p;
        if slice == 0 {
            self.standing = Standing::Expired { pcpu: p % 64 };
            self.leaving = self.service;
        } else {
            self.standing = Standing::Rests;
        }
    }

    // It came off its pCPU: it waits, with the service that it had once it had left.
    fn leave(&mut self)
        ensures { self.new ≡ left_row self.old }
    {
        self.standing = Standing::Waits;
        self.service = self.leaving;
    }
}

// ---- the decision

impl Leader {
    // Whether it is more deserving than the other.
    fn beats(&self, other: &Leader) -> bool
        ensures { result ≡ ahead self.now other.now }
    {
        service::more_deserving(self.service, self.weight, other.service, other.weight)
    }

    // Whether it is to run before the best so far: strict, so that the earliest leads.
    fn goes_before(&self, best: &Option<Leader>) -> bool
        ensures { result ≡ goes_before self.now best.now }
    {
        match best {
            Some(best) => self.beats(best),
            None => true,
        }
    }

    // Whether it is to yield before the worst so far: strict, so that the earliest leads.
    fn yields_before(&self, worst: &Option<Leader>) -> bool
        ensures { result ≡ yields_before self.now worst.now }
    {
        match worst {
            Some(worst) => worst.beats(self),
            None => true,
        }
    }
}

// The most deserving slot that waits and can be placed, with the lowest-numbered pCPU for it.
fn best_placement(rows: &[Row], idle: u64) -> Option<Leader>
    ensures { LeadsChosen rows.now idle (length rows.now) result }
{
    let mut best: Option<Leader> = None;
    for (i, row) in rows.iter().enumerate() {
        if row.waits() {
            let pcpu = row.first_idle_pcpu(idle);
            if pcpu < 64 {
                let next = row.leader(i, pcpu);
                if next.goes_before(&best) {
                    best = Some(next);
                }
            }
        }
    }
    best
}

// Whether some slot that waits, and whose mask admits the runner's pCPU, beats the runner.
fn some_affine_waiter_beats(rows: &[Row], runner: &Leader) -> bool
    requires { StandsExpired rows.now runner.now }
    ensures { result ≡ beaten (tabled rows.now 0) (length rows.now) runner.now.at }
{
    for row in rows {
        if row.waits()
            && masks::mask_permits(row.mask, runner.pcpu)
            && service::more_deserving(row.service, row.weight, runner.service, runner.weight)
        {
            return true;
        }
    }
    false
}

// The least deserving expired slot that some waiter beats. Whether it would lead is tested first: that is
// cheaper, and the answer is the same.
fn best_preemption(rows: &[Row]) -> Option<Leader>
    ensures { LeadsVictim rows.now (length rows.now) result }
{
    let mut worst: Option<Leader> = None;
    for (i, row) in rows.iter().enumerate() {
        if let Standing::Expired { pcpu } = row.standing {
            let next = row.leader(i, pcpu);
            if next.yields_before(&worst) && some_affine_waiter_beats(rows, &next) {
                worst = Some(next);
            }
        }
    }
    worst
}

fn decide_among(rows: &[Row], idle: u64) -> Choice
    ensures { result ≡ decide (tabled rows.now idle) (length rows.now) }
{
    if idle != 0 {
        if let Some(best) = best_placement(rows, idle) {
            return Choice::Run {
                at: best.at,
                pcpu: rows[best.at].back_to_last(idle, best.pcpu),
            };
        }
    }
    match best_preemption(rows) {
        Some(worst) => Choice::Preempt {
            at: worst.at,
            pcpu: worst.pcpu,
        },
        None => Choice::Rest,
    }
}

/// The next move over the first `n` slots, at most 128; `idle` is the set of idle pCPUs.
pub fn decide(table: &Table, n: usize, idle: u64) -> Choice
    ensures { result ≡ decide (tabled table.now idle) (min n 128) }
{
    decide_among(&table[..n.min(SLOTS)], idle)
}

// ---- settling

impl From<Move> for Choice {
    ghost from_gives = { λ m c. c ≡ choice_of m };

    // % 128 and % 64 keep them in range without a precondition.
    fn from(m: Move) -> Choice {
        match m {
            Move::Onto { pcpu, at } => Choice::Run {
                at: (at % 128) as usize,
                pcpu: (pcpu % 64) as u32,
            },
            Move::Off { pcpu, at } => Choice::Preempt {
                at: (at % 128) as usize,
                pcpu: (pcpu % 64) as u32,
            },
        }
    }
}

// The set with pCPU p; one that has it stays as it is, so that no sum leaves the word.
fn with_pcpu(idle: u64, p: u32) -> u64
    ensures { result ≡ with_pcpu idle p }
{
    if masks::mask_permits(idle, p) {
        idle
    } else {
        idle + masks::pcpu_bit(p)
    }
}

/// The next move of a settling over the first `n` slots, at most 128: decides, and does what is decided to the table and to the set
/// of idle pCPUs.
pub fn make_move(table: &mut Table, n: usize, idle: &mut u64, slice: u64) -> Choice
    ensures made { result ≡ made (decide (tabled table.old idle.old) (min n 128)) }
    ensures table { table.new ≡ table_after slice table.old result }
    ensures idle { idle.new ≡ idle_after idle.old result }
    ensures within { InRange result }
    ensures next { (k : ℕ) → settled slice (min n 128) (k + 1) table.old idle.old ≡ with_rest result (settled slice (min n 128) k table.new idle.new) }
{
    match decide(&*table, n, *idle) {
        Choice::Run { at, pcpu } => {
            table[at].dispatch(pcpu, slice);
            *idle -= masks::pcpu_bit(pcpu);
            Choice::Run { at, pcpu }
        }
        Choice::Preempt { at, pcpu } => {
            table[at].leave();
            *idle = with_pcpu(*idle, pcpu % 64);
            Choice::Preempt {
                at,
                pcpu: pcpu % 64,
            }
        }
        Choice::Rest => Choice::Rest,
    }
}

/// Makes and logs a move after another until there is none: over the first `n` slots, at most 128, and at most `most` moves, or 320.
/// The answer is how many there are.
pub fn settle(
    table: &mut Table,
    log: &mut Log,
    n: usize,
    mut idle: u64,
    most: usize,
    slice: u64,
) -> usize
    ensures within { result ≤ 320 }
    ensures count { result ≡ length (settled slice (min n 128) (min most 320) table.old idle) }
    ensures logged { logged_first log.new result ≡ settled slice (min n 128) (min most 320) table.old idle }
{
    let mut left = most.min(LOG);
    let mut count: usize = 0;
    // One exit: with a second one the scans of a decision are a tenth slower.
    while left > 0 {
        match make_move(table, n, &mut idle, slice) {
            Choice::Run { at, pcpu } => {
                log[count] = Move::Onto {
                    pcpu: pcpu as u8,
                    at: at as u16,
                };
                count += 1;
                left -= 1;
            }
            Choice::Preempt { at, pcpu } => {
                log[count] = Move::Off {
                    pcpu: pcpu as u8,
                    at: at as u16,
                };
                count += 1;
                left -= 1;
            }
            Choice::Rest => {
                left = 0;
            }
        }
    }
    count
}
