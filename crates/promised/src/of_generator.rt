//! Numbers drawn from a seed.

#![tactic(auto, using(crate::proofs::Page::loads))]

ghost use Rattle.std.specs.Prelude.{◌≡◌};
ghost use Rattle.page.specs.Load.{draw, draw_if, state_if};

use generator::Generator;

pub fn draw(g: &mut Generator) -> u64
    ensures { (result ≡ draw g.old.state) × (g.new.state ≡ draw g.old.state) }
{
    g.draw()
}

pub fn draw_if(g: &mut Generator, wanted: bool) -> u64
    ensures { (result ≡ draw_if wanted g.old.state) × (g.new.state ≡ state_if wanted g.old.state) }
{
    g.draw_if(wanted)
}
