//! A load: a script that anyone can make again from its numbers, handed out record by record.

#![tactic(auto)]

ghost use Rattle.std.specs.Prelude.{◌≡◌, ◌<◌, IfSome, Some};
ghost use Rattle.load_script.specs.Loads.{load_outcome, refused_with, opened};

use generator::Generator;
use load_calls::call_from;
use records::{RECORD, Record, Shape, put_record};
use system::Answer;

/// A load that is under way: its build, the generator, the clock, whether the build was handed out, and how many calls
/// are still to come.
#[derive(Clone, Copy)]
pub struct Load {
    build: Record,
    generator: Generator,
    clock: u64,
    built: bool,
    left: u32,
}

/// What an opened load is told, and the load; a refused one has no records.
// No Result: that a refused load has no records is promised (`refused-empty`, and `opened` of the page).
#[derive(Clone, Copy)]
pub struct Opened {
    pub answer: Answer,
    pub load: Load,
}

// ---- opening

fn refused(answer: Answer) -> Opened
    ensures { load_outcome result ≡ refused_with answer }
{
    Opened {
        answer,
        load: Load {
            build: Record {
                kind: 0,
                dom: 0,
                vcpu: 0,
                third: 0,
                value: 0,
            },
            generator: Generator { state: 0 },
            clock: 0,
            built: true,
            left: 0,
        },
    }
}

/// A load of that seed, shape, slice and count of calls.
#[tactic(auto, unfolding(crate::specs::Loads::opened))]
pub fn open(seed: u64, shape: Shape, count: u32) -> Opened
    ensures { load_outcome result ≡ opened seed shape count }
{
    let num_domains = shape.num_domains;
    let vcpus_per_domain = shape.vcpus_per_domain;
    let num_pcpus = shape.num_pcpus;
    let within = system::within_sizes(num_domains, vcpus_per_domain, num_pcpus);
    if seed == 0 {
        return refused(Answer::BadSeed);
    }
    if !within {
        return refused(Answer::TooLarge);
    }
    Opened {
        answer: Answer::Done,
        load: Load {
            build: Record {
                kind: 0,
                dom: num_domains as u16,
                vcpu: vcpus_per_domain as u32,
                third: num_pcpus as u32,
                value: shape.quantum,
            },
            generator: Generator { state: seed },
            clock: 0,
            built: false,
            left: count,
        },
    }
}

// ---- handing out

impl Load {
    ghost use Rattle.std.proofs.lemmas.List.Edits.{sets};
    ghost use Rattle.io.specs.Counts.{IsPrefixLen};
    ghost use Rattle.load_script.specs.Loads.{size, first, rest, stretch, fitting, filled};

    /// How many records are still to come.
    pub fn records_left(&self) -> usize
        ensures { result ≡ size self.now }
    {
        let left = self.left as usize;
        if self.built { left } else { left + 1 }
    }

    // The record that comes next, where there is one.
    #[tactic(auto, unfolding(crate::specs::Loads::first, crate::specs::Loads::rest))]
    fn hand_out(&mut self) -> Record
        requires { 0 < size self.old }
        ensures next { result ≡ first self.old }
        ensures load { self.new ≡ rest self.old }
    {
        if !self.built {
            self.built = true;
            return self.build;
        }
        let called = call_from(
            self.build.dom,
            self.build.vcpu,
            self.generator.state,
            self.clock,
        );
        self.generator.state = called.state;
        self.clock = called.clock;
        self.left -= 1;
        called.call
    }

    /// Writes a stretch of the script: as many records as are still to come and as there is room for. The number of
    /// their bytes is handed back.
    pub fn fill(&mut self, out: &mut [u8]) -> usize
        ensures bytes { out.new ≡ sets out.old 0 (stretch (fitting self.old out.old) self.old) }
        ensures load { self.new ≡ (filled self.old out.old).load }
        ensures written { result ≡ (filled self.old out.old).written }
        ensures prefix { IsPrefixLen result out.new }
    {
        let n = self.records_left().min(out.len() / RECORD);
        for i in 0..n {
            let next = self.hand_out();
            put_record(out, i * RECORD, next);
        }
        n * RECORD
    }
}

/// Record by record; a load that is over stays as it is.
impl Iterator for Load {
    type Item = Record;

    ghost use Rattle.std.specs.Iterator.{at_most, UpTo};
    ghost use Rattle.std.specs.Iterator.SizeHint.{IsWithinCount};
    ghost use Rattle.load_script.specs.Loads.{size, handed};

    ghost next_gives = { λ l r m. (r ≡ (handed l).next) × (m ≡ (handed l).load) };

    ghost remaining = { λ l. at_most (size l) };

    fn next(&mut self) -> Option<Record> {
        if self.records_left() == 0 {
            return None;
        }
        Some(self.hand_out())
    }

    fn size_hint(&self) -> (usize, Option<usize>)
        ensures lower { IsWithinCount result.0 (at_most (size self.now)) }
        ensures upper { IfSome result.1 (UpTo (at_most (size self.now))) }
        ensures value { result ≡ (size self.now, Some (size self.now)) }
    {
        let left = self.records_left();
        (left, Some(left))
    }
}
