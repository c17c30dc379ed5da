//! Writes a load, a script that anyone can make again from its numbers, to standard output:
//!   load SEED DOMAINS VCPUS PCPUS SLICE COUNT
//! What is refused stands on standard error alone. A program sets no status: `tools/load` does, by that.

#![tactic(auto)]

use load_script::Load;
use records::Shape;
use streams::arguments::{self, WORD_ROOM};
use system::Answer;

// How many numbers are asked for.
const NUMBERS: usize = 6;

// What is asked for.
#[derive(Clone, Copy)]
struct Order {
    seed: u64,
    shape: Shape,
    count: u32,
}

// Why no load is written: there are not as many arguments; argument i, from 1 on, is not what the form has there; or the
// answer that the load was told.
#[derive(Clone, Copy)]
enum Refusal {
    Misused,
    NotANumber(usize),
    Told(Answer),
}

// ---- words

fn misused(rt: &HostRuntime) {
    streams::say(
        rt,
        b"usage: load SEED DOMAINS VCPUS PCPUS SLICE COUNT > SCRIPT\n",
    );
}

fn misused_at(rt: &HostRuntime, i: usize) {
    misused(rt);
    match i {
        1 => streams::say(rt, b"load: SEED is not a number below 2^64\n"),
        2 => streams::say(rt, b"load: DOMAINS is not a number below 2^64\n"),
        3 => streams::say(rt, b"load: VCPUS is not a number below 2^64\n"),
        4 => streams::say(rt, b"load: PCPUS is not a number below 2^64\n"),
        5 => streams::say(rt, b"load: SLICE is not a number below 2^64\n"),
        _ => streams::say(rt, b"load: COUNT is not a number below 2^32\n"),
    }
}

fn refused(rt: &HostRuntime, refusal: Refusal) {
    match refusal {
        Refusal::Misused => misused(rt),
        Refusal::NotANumber(i) => misused_at(rt, i),
        Refusal::Told(Answer::BadSeed) => {
            streams::say(rt, b"15 BadSeed: a load's seed is zero\n");
        }
        Refusal::Told(_) => streams::say(
            rt,
            b"7 TooLarge: a host has at most 16 domains, 8 vCPUs in each, 64 pCPUs\n",
        ),
    }
}

// ---- arguments

fn numbers(rt: &HostRuntime) -> Result<[u64; NUMBERS], Refusal> {
    let mut numbers = [0u64; NUMBERS];
    let mut word = [0u8; WORD_ROOM];
    for i in 0..NUMBERS {
        numbers[i] = arguments::number(rt, i + 1, &mut word).ok_or(Refusal::NotANumber(i + 1))?;
    }
    Ok(numbers)
}

fn ordered(rt: &HostRuntime) -> Result<Order, Refusal> {
    if arguments::count(rt, NUMBERS + 2) != NUMBERS + 1 {
        return Err(Refusal::Misused);
    }
    let [seed, domains, vcpus, pcpus, quantum, count] = numbers(rt)?;
    let count = u32::try_from(count).map_err(|_| Refusal::NotANumber(NUMBERS))?;
    let shape = Shape {
        num_domains: domains as usize,
        vcpus_per_domain: vcpus as usize,
        num_pcpus: pcpus as usize,
        quantum,
    };
    Ok(Order { seed, shape, count })
}

// ---- the script

// Writes the records of the load, 3000 at a time.
fn put_script(rt: &HostRuntime, load: Load) {
    let mut left = load;
    let mut out = [0u8; 60000];
    while left.records_left() > 0 {
        let n = left.fill(&mut out);
        if !streams::put(rt, &out[..n], b"load: standard output takes no more\n") {
            return;
        }
    }
}

fn make(rt: &HostRuntime) -> Result<(), Refusal> {
    let order = ordered(rt)?;
    let opened = load_script::open(order.seed, order.shape, order.count);
    match opened.answer {
        Answer::Done => put_script(rt, opened.load),
        answer => return Err(Refusal::Told(answer)),
    }
    Ok(())
}

fn main(rt: HostRuntime) {
    if let Err(refusal) = make(&rt) {
        refused(&rt, refusal);
    }
}
