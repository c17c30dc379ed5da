//! The usage file of a host at a reading: what ledger software reads.

#![tactic(auto)]

ghost use Rattle.std.specs.Prelude.{◌≡◌, ◌+◌, ◌≤◌, ◌<◌, length, take};
ghost use Rattle.std.proofs.lemmas.List.Edits.{sets};
ghost use Rattle.service.specs.Service.{value};
ghost use Rattle.usage_layout.specs.Layout.{each, entry, vcpu_bytes, file, padded};
ghost use Rattle.usage_layout.specs.Files.{Says};
ghost use Rattle.usage_write.specs.Written.{figures_of};

use big_endian::BigEndian;
use policy::Scheduler;
use service::Service;
use system::{MAX_VCPUS, System, Ticks};
use usage_layout::MAGIC;

/// The largest file: 6 bytes, a line of 6 for each of 16 domains, 20 for each of their 8 vCPUs.
pub const ROOM: usize = 2662;

/// A file: the first `length` bytes, and zeros past them.
#[derive(Clone, Copy)]
pub struct Written {
    pub bytes: [u8; ROOM],
    pub length: usize,
}

// ---- parts

// The line of domain d in the table of contents of n domains of k vCPUs.
fn entry(n: usize, k: usize, d: usize) -> [u8; 6]
    requires { (n ≤ 16) × (k ≤ 8) × (d < n) }
    ensures { result ≡ entry n k d }
{
    let mut line = [0u8; 6];
    ((6 + n * 6 + d * (k * 20)) as u32).put_at(&mut line, 0);
    (k as u16).put_at(&mut line, 4);
    line
}

// A vCPU's weight, and its service, the limb that is worth most first.
fn vcpu_bytes(weight: u32, service: Service) -> [u8; 20]
    ensures { result ≡ vcpu_bytes weight (value service) }
{
    let mut bytes = [0u8; 20];
    weight.put_at(&mut bytes, 0);
    service[3].put_at(&mut bytes, 4);
    service[2].put_at(&mut bytes, 8);
    service[1].put_at(&mut bytes, 12);
    service[0].put_at(&mut bytes, 16);
    bytes
}

// Puts bytes for which there is room.
fn put(out: &mut [u8; ROOM], at: usize, bytes: &[u8])
    requires { at + length bytes.now ≤ 2662 }
    ensures { out.new ≡ sets out.old at bytes.now }
{
    out[at..at + bytes.len()].copy_from_slice(bytes);
}

// The table of contents of n domains of k vCPUs.
fn put_entries(out: &mut [u8; ROOM], n: usize, k: usize)
    requires { (n ≤ 16) × (k ≤ 8) }
    ensures { out.new ≡ sets out.old 6 (each n (entry n k)) }
{
    for d in 0..n {
        put(out, 6 + d * 6, &entry(n, k, d));
    }
}

// ---- the file

/// The usage file of a system and a policy, damaged or not, as reads see them.
pub fn write(s: &System, p: &Scheduler, now: Ticks) -> Written
    ensures bytes { result.bytes ≡ padded (file (figures_of s.now p.now now)) }
    ensures fits { (result.length ≡ length (file (figures_of s.now p.now now))) × (result.length ≤ 2662) }
    ensures first { take result.length result.bytes ≡ file (figures_of s.now p.now now) }
    ensures says { Says (file (figures_of s.now p.now now)) (figures_of s.now p.now now) }
{
    let n = s.domain_count();
    let k = s.vcpus_per_domain();
    let mut bytes = [0u8; ROOM];
    put(&mut bytes, 0, &MAGIC);
    (n as u16).put_at(&mut bytes, 4);
    put_entries(&mut bytes, n, k);
    let mut length = 6 + n * 6;
    for i in 0..n * MAX_VCPUS {
        if i % MAX_VCPUS < k {
            let weight = p.account_at(i).used_weight();
            let service = s.vcpus[i].runtime_until(now);
            put(&mut bytes, length, &vcpu_bytes(weight, service));
            length += 20;
        }
    }
    Written { bytes, length }
}
