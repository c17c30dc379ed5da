//! Marsaglia's 64-bit xorshift: numbers that anyone can draw again.

#![tactic(auto)]

ghost use Rattle.std.specs.Prelude.{◌≡◌};
ghost use Rattle.generator.specs.Xorshift.{after, drawn_if, state_if};

#[tactic(auto, unfolding(crate::specs::Xorshift::after, crate::specs::Xorshift::up, crate::specs::Xorshift::down))]
fn step(x: u64) -> u64
    ensures { result ≡ after x }
{
    let a = x ^ (x << 13);
    let b = a ^ (a >> 7);
    b ^ (b << 17)
}

/// A generator. The number that it last drew is its state.
#[derive(Clone, Copy)]
pub struct Generator {
    pub state: u64,
}

impl Generator {
    /// The next number.
    pub fn draw(&mut self) -> u64
        ensures { (result ≡ after self.old.state) × (self.new.state ≡ after self.old.state) }
    {
        self.state = step(self.state);
        self.state
    }

    /// The next number where it is wanted; else 0, and the generator stays as it was.
    // No Option: the 0 is promised.
    pub fn draw_if(&mut self, wanted: bool) -> u64
        ensures { (result ≡ drawn_if wanted self.old.state) × (self.new.state ≡ state_if wanted self.old.state) }
    {
        if wanted { self.draw() } else { 0 }
    }
}
