//! Records of a script: read, obeyed and written.

#![tactic(auto, using(crate::proofs::Page::scripts))]

ghost use Rattle.std.specs.Prelude.{◌≡◌};
ghost use Rattle.page.specs.Script.{record_at, plan, put_record};

use records::{Plan, Record};

pub fn record_at(bytes: &[u8]) -> Record
    ensures { result ≡ record_at bytes.now }
{
    records::record_at(bytes)
}

pub fn plan_of(built: bool, bytes: &[u8]) -> Plan
    ensures { result ≡ plan built bytes.now }
{
    records::plan_of(built, bytes)
}

pub fn put_record(out: &mut [u8], at: usize, r: Record)
    ensures { out.new ≡ put_record out.old at r }
{
    records::put_record(out, at, r)
}
