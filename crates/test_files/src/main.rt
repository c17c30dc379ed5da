//! What a reader tells of each file of a stream, for tests. Standard input has for each file its length (2
//! bytes, big-endian), a domain (8) and the file. A line for each: 0 or 13, its domains, what is told of that
//! domain and the length of that domain's body; then, of a file that is accepted, a line for each vCPU.

#![tactic(auto)]

use big_endian::BigEndian;
use std::io::Print;
use system::{Answer, MAX_DOMAINS};

// The longest file that is looked at; the longest that is accepted has 2662 bytes.
const ROOM: usize = 4096;

fn put_bytes(rt: &HostRuntime, bytes: &[u8]) {
    // what is not taken is missed by whoever compares it
    let _ = rt.stdout().write_all(bytes);
}

fn put(rt: &HostRuntime, n: u64, end: &[u8]) {
    let _ = rt.stdout().print(n);
    put_bytes(rt, end);
}

fn examine(rt: &HostRuntime, file: &[u8], domain: usize) {
    match usage_parse::domain_count(file) {
        None => put(rt, system::number_of(Answer::BadFile), b" 0 "),
        Some(count) => {
            put(rt, 0, b" ");
            put(rt, count as u64, b" ");
        }
    }
    let answer = usage_read::answer_of(file, domain);
    put(rt, system::number_of(answer), b" ");
    put(rt, usage_read::body_of(file, domain).len() as u64, b"\n");
    // by one reader, what it gives of each domain
    let all = usage_read::text_of(file, MAX_DOMAINS);
    put_bytes(rt, &all.bytes[..all.length]);
}

// One file; false where there is none left.
fn examined(rt: &HostRuntime) -> bool {
    let mut head = [0u8; 10];
    let mut input = [0u8; ROOM];
    if streams::read(rt, &mut head).bytes < head.len() {
        return false;
    }
    let length = u16::read_at(&head, 0) as usize;
    let domain = u64::read_at(&head, 2);
    if ROOM < length {
        return false;
    }
    let file = &mut input[..length];
    if streams::read(rt, file).bytes < length {
        return false;
    }
    examine(rt, file, domain as usize);
    true
}

fn main(rt: HostRuntime) {
    // a proved loop has to end, and nothing says that the input does
    for _ in 0..u64::MAX {
        if !examined(&rt) {
            return;
        }
    }
}
