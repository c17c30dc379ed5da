//! A script under way.

#![tactic(auto, using(crate::proofs::Page::scripts))]

ghost use Rattle.std.specs.Prelude.{◌≡◌};
ghost use Rattle.page.specs.Script.{begun, replayed, replayed_script, replayed_out};

use script::{Script, Taken};

pub fn new() -> Script
    ensures { result ≡ begun }
{
    Script::new()
}

pub fn replay(script: &mut Script, bytes: &[u8], out: &mut [u8], states: bool) -> Taken
    ensures script { script.new ≡ replayed_script states script.old bytes.now out.old }
    ensures handed_back { result ≡ replayed states script.old bytes.now out.old }
    ensures bytes_after { out.new ≡ replayed_out states script.old bytes.now out.old }
{
    script.replay(bytes, out, states)
}
