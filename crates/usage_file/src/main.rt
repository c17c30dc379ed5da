//! Writes the usage file of the host that a script leaves, or reads one:
//!   usage_file write READING    a script on standard input, the file on standard output
//!   usage_file read [DOMAIN]    a file on standard input, a line for each vCPU on standard output
//! What is refused stands on standard error alone: of a script, also a record that is no call, a last one that is cut off, and
//! that no host is built. A program sets no status: `tools/usage_file` does, by that.

#![tactic(auto)]

use records::RECORD;
use script::Script;
use std::env::Env;
use std::io::Print;
use streams::arguments::{self, WORD_ROOM};
use system::{Answer, MAX_DOMAINS};

// What is asked for; a read with no domain is of all.
#[derive(Clone, Copy)]
enum Request {
    Write { reading: u64 },
    Read { domain: Option<usize> },
}

// Why it is not done.
#[derive(Clone, Copy)]
enum Refusal {
    Misused,
    NoReading,
    NoDomain,
    UnreadScript,
    NoCall { record: u64, cut_off: bool },
    NoHost,
    UnreadFile,
    BadFile,
    NotInFile,
}

// ---- words

fn misused(rt: &HostRuntime) {
    streams::say(
        rt,
        b"usage: usage_file write READING < SCRIPT > FILE\n       usage_file read [DOMAIN] < FILE\n",
    );
}

fn misused_with(rt: &HostRuntime, words: &[u8]) {
    misused(rt);
    streams::say(rt, words);
}

fn no_call(rt: &HostRuntime, record: u64, cut_off: bool) {
    streams::say(rt, b"9 BadScript: record ");
    // where standard error takes nothing, nobody can be told
    let _ = rt.stderr().print(record);
    if cut_off {
        streams::say(rt, b" is cut off\n");
    } else {
        streams::say(rt, b" is no call, or comes before any host is built\n");
    }
}

fn refused(rt: &HostRuntime, refusal: Refusal) {
    match refusal {
        Refusal::Misused => misused(rt),
        Refusal::NoReading => misused_with(rt, b"usage_file: READING is not a number below 2^64\n"),
        Refusal::NoDomain => misused_with(rt, b"usage_file: DOMAIN is not a number below 2^64\n"),
        Refusal::UnreadScript => {
            streams::say(rt, b"9 BadScript: standard input cannot be read\n");
        }
        Refusal::NoCall { record, cut_off } => no_call(rt, record, cut_off),
        Refusal::NoHost => streams::say(rt, b"9 BadScript: the script builds no host\n"),
        Refusal::UnreadFile => {
            streams::say(rt, b"13 BadFile: standard input cannot be read\n");
        }
        Refusal::BadFile => streams::say(rt, b"13 BadFile: not a usage file\n"),
        Refusal::NotInFile => {
            streams::say(rt, b"14 NotInFile: the usage file has no such domain\n");
        }
    }
}

fn put(rt: &HostRuntime, bytes: &[u8]) {
    streams::put(rt, bytes, b"usage_file: standard output takes no more\n");
}

// ---- arguments

fn asked(rt: &HostRuntime) -> Result<Request, Refusal> {
    let mut word = [0u8; 8];
    let n = rt.arg(1, &mut word).unwrap_or(0);
    let count = arguments::count(rt, 4);
    let mut number = [0u8; WORD_ROOM];
    match &word[..n] {
        b"write" if count == 3 => {
            let reading = arguments::number(rt, 2, &mut number).ok_or(Refusal::NoReading)?;
            Ok(Request::Write { reading })
        }
        b"read" if count == 2 => Ok(Request::Read { domain: None }),
        b"read" if count == 3 => {
            let domain = arguments::number(rt, 2, &mut number).ok_or(Refusal::NoDomain)?;
            Ok(Request::Read {
                domain: Some(domain as usize),
            })
        }
        _ => Err(Refusal::Misused),
    }
}

// ---- write

// Whether there may be more of the script.
fn stretch(
    rt: &HostRuntime,
    script: &mut Script,
    input: &mut [u8],
    output: &mut [u8],
) -> Result<bool, Refusal> {
    let got = streams::read(rt, input);
    let bytes = &input[..got.bytes];
    let first = script::first_no_call(script.built, bytes);
    let number = script.number;
    let taken = script.replay(bytes, output, false);
    if got.error.is_some() {
        return Err(Refusal::UnreadScript);
    }
    if first < taken.records {
        return Err(Refusal::NoCall {
            record: number.wrapping_add(first as u64).wrapping_add(1),
            cut_off: first == bytes.len() / RECORD,
        });
    }
    Ok(bytes.len() == input.len())
}

// The script on standard input, played to its end; nobody reads its lines.
fn play(rt: &HostRuntime, script: &mut Script) -> Result<(), Refusal> {
    // the bytes of 1000 records, and room for their lines
    let mut input = [0u8; 20000];
    let mut output = [0u8; 63000];
    // a proved loop has to end, and nothing says that the input does
    for _ in 0..u64::MAX {
        if !stretch(rt, script, &mut input, &mut output)? {
            break;
        }
    }
    Ok(())
}

fn write_file(rt: &HostRuntime, reading: u64) -> Result<(), Refusal> {
    let mut script = Script::new();
    play(rt, &mut script)?;
    if !script.built {
        return Err(Refusal::NoHost);
    }
    let host = &script.host;
    let file = usage_write::write(&host.system, &host.scheduler, reading);
    put(rt, &file.bytes[..file.length]);
    Ok(())
}

// ---- read

fn put_domain(rt: &HostRuntime, file: &[u8], domain: usize) -> Result<(), Refusal> {
    match usage_read::answer_of(file, domain) {
        Answer::BadFile => return Err(Refusal::BadFile),
        Answer::NotInFile => return Err(Refusal::NotInFile),
        _ => {}
    }
    let text = usage_text::body_text(domain as u64, usage_read::body_of(file, domain));
    put(rt, &text.bytes[..text.length]);
    Ok(())
}

// One reader answers for each domain.
fn put_all(rt: &HostRuntime, file: &[u8]) -> Result<(), Refusal> {
    let all = usage_read::text_of(file, MAX_DOMAINS);
    if all.count.is_none() {
        return Err(Refusal::BadFile);
    }
    put(rt, &all.bytes[..all.length]);
    Ok(())
}

// A usage file on standard input: what is asked of it.
fn read_file(rt: &HostRuntime, domain: Option<usize>) -> Result<(), Refusal> {
    // a byte more than the largest file has, so that a longer one is seen to be longer
    let mut input = [0u8; usage_write::ROOM + 1];
    let got = streams::read(rt, &mut input);
    if got.error.is_some() {
        return Err(Refusal::UnreadFile);
    }
    let file = &input[..got.bytes];
    match domain {
        Some(domain) => put_domain(rt, file, domain),
        None => put_all(rt, file),
    }
}

fn answered(rt: &HostRuntime) -> Result<(), Refusal> {
    match asked(rt)? {
        Request::Write { reading } => write_file(rt, reading),
        Request::Read { domain } => read_file(rt, domain),
    }
}

fn main(rt: HostRuntime) {
    if let Err(refusal) = answered(&rt) {
        refused(&rt, refusal);
    }
}
