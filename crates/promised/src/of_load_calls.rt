//! A call of a load: what it draws, and its record.

#![tactic(auto, using(crate::proofs::Page::loads))]

ghost use Rattle.std.specs.Prelude.{◌≡◌};
ghost use Rattle.page.specs.Load.{called, drawn};

use generator::Generator;
use load_calls::{Called, Numbers};

pub fn draw_numbers(g: &mut Generator, domains: u64, vcpus: u64) -> Numbers
    ensures { (result ≡ (drawn domains vcpus g.old.state).numbers) × (g.new.state ≡ (drawn domains vcpus g.old.state).state) }
{
    load_calls::draw_numbers(g, domains, vcpus)
}

pub fn call_from(domains: u16, vcpus: u32, state: u64, clock: u64) -> Called
    ensures { result ≡ called domains vcpus state clock }
{
    load_calls::call_from(domains, vcpus, state, clock)
}
