//! Reads records on standard input and writes what each is told and, once there is a host, all that
//! can be read of it at the record's own ids, with its value for a clock. Kinds 0 to 10 are those of a
//! script; 11 takes a domain offline, 12 builds a host whose policy has a shape of its own, and 13 to 29
//! write one field of the host with no test.

#![tactic(auto)]

ghost use Rattle.std.specs.Prelude.{◌≡◌, ◌≤◌, length};
ghost use Rattle.io.specs.Counts.{IsPrefixLen};
ghost use Rattle.host.specs.Outcomes.{host_outcome};
ghost use Rattle.script.specs.Script.{carried};
ghost use Rattle.examine.specs.Examine.{apart, replaced, planned, field_written, answered, entry_room, Examined};

use calls::Call;
use host::{Host, Outcome};
use policy::Scheduler;
use records::{Plan, Record};
use script::Script;
use system::{Answer, System};
use test_reads::Query;

// The most bytes that a record's text takes: what it is told, and what can be read of the host.
const ENTRY_ROOM: usize = text::ANSWER_ROOM + test_reads::ROOM;

// ---- what a record is told

// Kind 12: the policy's domains are the value's first byte, its vCPUs the second, the slice the other six.
#[tactic(auto, unfolding(crate::specs::Examine::apart))]
fn apart(r: Record) -> Result<Host, Answer>
    ensures { result ≡ apart r }
{
    let num_domains = (r.value / 0x100_0000_0000_0000) as usize;
    let vcpus_per_domain = (r.value / 0x1_0000_0000_0000 % 0x100) as usize;
    let quantum = r.value % 0x1_0000_0000_0000;
    let system = System::new(r.dom as usize, r.vcpu as usize, r.third as usize)?;
    let scheduler = Scheduler::new(num_domains, vcpus_per_domain, quantum)?;
    Ok(Host { system, scheduler })
}

// A refusal leaves the host as it is.
fn replaced(h: &mut Host, built: Result<Host, Answer>) -> Outcome
    ensures { host_outcome result h.new ≡ replaced h.old built }
{
    let answer = match built {
        Ok(new) => {
            *h = new;
            Answer::Done
        }
        Err(answer) => answer,
    };
    Outcome { answer, count: 0 }
}

// There has to be a host.
fn field_written(h: &mut Host, built: bool, r: Record) -> Outcome
    ensures { host_outcome result h.new ≡ field_written h.old built r }
{
    let answer = if built {
        test_fields::write(h, r);
        Answer::Done
    } else {
        Answer::BadScript
    };
    Outcome { answer, count: 0 }
}

// A script's plan, but that kind 11 takes a domain offline.
#[tactic(auto, unfolding(crate::specs::Examine::planned))]
fn planned(built: bool, bytes: &[u8], r: Record) -> Plan
    ensures { result ≡ planned built bytes.now r }
{
    match r.kind {
        11 if built => Plan::Call(Call::OfflineAll {
            dom: r.dom,
            now: r.value,
        }),
        11 => Plan::Refuse(Answer::BadScript),
        _ => records::plan_of(built, bytes),
    }
}

#[tactic(auto, unfolding(script::specs::Script::carried))]
fn carried(h: &mut Host, plan: Plan) -> Outcome
    ensures { host_outcome result h.new ≡ carried h.old plan }
{
    match plan {
        Plan::Refuse(answer) => Outcome { answer, count: 0 },
        Plan::Build(shape) => {
            // what a refused one leaves: the host of nothing, as a script's is before any is built
            *h = Script::new().host;
            let built = Host::new(
                shape.num_domains,
                shape.vcpus_per_domain,
                shape.num_pcpus,
                shape.quantum,
            );
            replaced(h, built)
        }
        Plan::Call(call) => h.step(call),
    }
}

#[tactic(auto, unfolding(crate::specs::Examine::answered))]
fn answered(h: &mut Host, built: bool, bytes: &[u8], r: Record) -> Outcome
    ensures { host_outcome result h.new ≡ answered h.old built bytes.now r }
{
    match r.kind {
        12 => replaced(h, apart(r)),
        test_fields::FIRST..=test_fields::LAST => field_written(h, built, r),
        _ => carried(h, planned(built, bytes, r)),
    }
}

// ---- what is written of it

// There is a host from the first record on that is told 0.
fn examined(s: &mut Script, bytes: &[u8], out: &mut [u8]) -> usize
    requires { entry_room ≤ length out.old }
    ensures { Examined s.old bytes.now out.old s.new result out.new }
{
    let r = records::record_at(bytes);
    let told = answered(&mut s.host, s.built, bytes, r);
    let number = system::number_of(told.answer);
    s.built |= number == 0;
    s.number = s.number.wrapping_add(1);
    let past = text::put_answer_line(out, 0, s.number, number, told.count as u64);
    if !s.built {
        return past;
    }
    let query = Query {
        dom: r.dom,
        vcpu: r.vcpu,
        pcpu: r.third,
        clock: r.value,
    };
    test_reads::reads(out, past, &s.host, &query)
}

// ---- the program

// Whether all that is said of the record was written.
fn turn(rt: &HostRuntime, s: &mut Script, record: &[u8], output: &mut [u8]) -> bool
    requires { entry_room ≤ length output.old }
{
    let written = examined(s, record, output);
    streams::put(
        rt,
        &output[..written],
        b"examine: standard output takes no more\n",
    )
}

// How many bytes of a record there are; an error is said.
fn read(rt: &HostRuntime, input: &mut [u8]) -> usize
    ensures { IsPrefixLen result input.new }
{
    let got = streams::read(rt, input);
    if got.error.is_some() {
        streams::say(rt, b"examine: standard input cannot be read\n");
    }
    got.bytes
}

fn main(rt: HostRuntime) {
    let mut input = [0u8; records::RECORD];
    let mut output = [0u8; ENTRY_ROOM];
    let mut s = Script::new();
    // a proved loop has to end, and nothing says that the input does
    for _ in 0..u64::MAX {
        let bytes = read(&rt, &mut input);
        if bytes == 0 || !turn(&rt, &mut s, &input[..bytes], &mut output) {
            return;
        }
    }
}
