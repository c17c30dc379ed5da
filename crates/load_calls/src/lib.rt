//! A call of a load: the numbers that it draws, and the record that they make.

#![tactic(auto)]

ghost use Rattle.std.specs.Prelude.{◌≤◌, ◌≡◌};
ghost use Rattle.load_calls.specs.Calls.{kind_of, id_drawn, has_last, numbers_drawn, state_drawn, drawn};
ghost use Rattle.load_calls.specs.Calls.{id_of, later, clock_after, kind_number, value_of, called};

use generator::Generator;
use records::Record;

/// The calls of a load, by the remainders that stand for them.
#[derive(Clone, Copy, PartialEq, Eq, Debug)]
pub enum Kind {
    Admit,
    Block,
    Wake,
    Mask,
    Advance,
}

/// The numbers that a call draws, in their order; 0 for one that it does not draw.
// No Option: the zeros are promised.
#[derive(Clone, Copy, PartialEq, Eq, Debug)]
pub struct Numbers {
    pub kind: u64,
    pub dom: u64,
    pub vcpu: u64,
    pub last: u64,
}

/// The numbers of a call, and the generator's state after them.
#[derive(Clone, Copy, PartialEq, Eq, Debug)]
pub struct Drawn {
    pub numbers: Numbers,
    pub state: u64,
}

/// The record of a call, and the generator's state and the clock after it.
#[derive(Clone, Copy, PartialEq, Eq, Debug)]
pub struct Called {
    pub call: Record,
    pub state: u64,
    pub clock: u64,
}

impl Kind {
    // The kind that a number drawn stands for.
    #[tactic(auto, unfolding(crate::specs::Calls::kind_of))]
    fn of(number: u64) -> Kind
        ensures { result ≡ kind_of number }
    {
        match number % 5 {
            0 => Kind::Admit,
            1 => Kind::Block,
            2 => Kind::Wake,
            3 => Kind::Mask,
            _ => Kind::Advance,
        }
    }

    // Whether an id is drawn, where there are so many to draw from.
    fn draws_id(self, count: u64) -> bool
        ensures { result ≡ id_drawn self count }
    {
        self != Kind::Advance && count != 0
    }

    // Whether a last number is drawn.
    fn draws_last(self) -> bool
        ensures { result ≡ has_last self }
    {
        matches!(self, Kind::Block | Kind::Mask | Kind::Advance)
    }

    // The number of such a call in a script's record.
    fn number(self) -> u16
        ensures { result ≡ kind_number self }
    {
        match self {
            Kind::Admit => 1,
            Kind::Block => 4,
            Kind::Wake => 5,
            Kind::Mask => 7,
            Kind::Advance => 9,
        }
    }

    fn clock_after(self, clock: u64, last: u64) -> u64
        ensures { result ≡ clock_after self clock last }
    {
        match self {
            Kind::Admit | Kind::Wake | Kind::Mask => clock,
            Kind::Block | Kind::Advance => later(clock, last),
        }
    }

    fn value(self, clock: u64, last: u64) -> u64
        ensures { result ≡ value_of self clock last }
    {
        match self {
            Kind::Admit | Kind::Wake => 0,
            Kind::Block | Kind::Advance => clock,
            Kind::Mask => last,
        }
    }
}

// ---- what is drawn

/// Draws the numbers of one call, where there are so many domains of so many vCPUs.
#[tactic(auto, unfolding(crate::specs::Calls::numbers_drawn, crate::specs::Calls::state_drawn))]
pub fn draw_numbers(g: &mut Generator, domains: u64, vcpus: u64) -> Numbers
    ensures { (result ≡ numbers_drawn domains vcpus g.old.state) × (g.new.state ≡ state_drawn domains vcpus g.old.state) }
{
    let number = g.draw();
    let kind = Kind::of(number);
    let dom = g.draw_if(kind.draws_id(domains));
    let vcpu = g.draw_if(kind.draws_id(vcpus));
    let last = g.draw_if(kind.draws_last());
    Numbers {
        kind: number,
        dom,
        vcpu,
        last,
    }
}

// From a state to a generator and back: who calls this sees plain numbers alone.
fn numbers_from(state: u64, domains: u64, vcpus: u64) -> Drawn
    ensures { result ≡ drawn domains vcpus state }
{
    let mut g = Generator { state };
    let numbers = draw_numbers(&mut g, domains, vcpus);
    Drawn {
        numbers,
        state: g.state,
    }
}

// ---- what is made of it

fn id_of(number: u64, count: u64) -> u64
    ensures by_remainder { result ≡ id_of number count }
    ensures within_count { result ≤ count }
{
    if count == 0 { 0 } else { number % count }
}

// The clock moved on by a step; it stays at the last reading there is.
#[tactic(auto, unfolding(crate::specs::Calls::later))]
fn later(clock: u64, number: u64) -> u64
    ensures { result ≡ later clock number }
{
    let step = number % 100;
    clock.saturating_add(step)
}

/// The call that comes next, from a generator's state and a clock, on so many domains of so many vCPUs.
#[tactic(auto, unfolding(crate::specs::Calls::called, crate::specs::Calls::numbers_drawn))]
pub fn call_from(domains: u16, vcpus: u32, state: u64, clock: u64) -> Called
    ensures { result ≡ called domains vcpus state clock }
{
    let drawn = numbers_from(state, domains as u64, vcpus as u64);
    let n = drawn.numbers;
    let kind = Kind::of(n.kind);
    let now = kind.clock_after(clock, n.last);
    let dom = id_of(n.dom, domains as u64);
    let vcpu = id_of(n.vcpu, vcpus as u64);
    Called {
        call: Record {
            kind: kind.number(),
            dom: dom as u16,
            vcpu: vcpu as u32,
            third: 0,
            value: kind.value(now, n.last),
        },
        state: drawn.state,
        clock: now,
    }
}
