//! Times what standard input orders, 8 bytes an order: what is made, how many rounds of it (4 bytes, big-endian), and a shape
//! (domains, vCPUs of each, pCPUs), which advances look at. For each a line with a count:
//!   0  transitions of a full host
//!   1  advances of a host of the shape
//!   2  usage files of a full host, written
//!   3  usage files of a full host, opened

#![tactic(auto)]

use big_endian::BigEndian;
use std::io::Print;

mod advances;
mod transitions;
mod usage_files;

// What is timed, by the order's first byte.
enum Timed {
    Transitions,
    Advances,
    FilesWritten,
    FilesOpened,
}

impl From<u8> for Timed {
    fn from(byte: u8) -> Timed {
        match byte {
            0 => Timed::Transitions,
            1 => Timed::Advances,
            2 => Timed::FilesWritten,
            _ => Timed::FilesOpened,
        }
    }
}

fn made(timed: Timed, rounds: u64, num_domains: u8, vcpus: u8, pcpus: u8) -> u64 {
    match timed {
        Timed::Transitions => transitions::made(rounds),
        Timed::Advances => {
            advances::made(num_domains as usize, vcpus as usize, pcpus as usize, rounds)
        }
        Timed::FilesWritten => usage_files::written(rounds),
        Timed::FilesOpened => usage_files::opened(rounds),
    }
}

// One order; false where there is none left.
fn obeyed(rt: &HostRuntime) -> bool {
    let mut order = [0u8; 8];
    let got = streams::read(rt, &mut order);
    if got.bytes < 8 {
        return false;
    }
    let [timed, _, _, _, _, num_domains, vcpus, pcpus] = order;
    let rounds = u32::read_at(&order, 1) as u64;
    let count = made(Timed::from(timed), rounds, num_domains, vcpus, pcpus);
    // what is not taken is missed by whoever reads it
    let _ = rt.stdout().println(count);
    true
}

fn main(rt: HostRuntime) {
    // a proved loop has to end, and nothing says that the input does
    for _ in 0..u64::MAX {
        if !obeyed(&rt) {
            return;
        }
    }
}
