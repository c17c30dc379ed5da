//! A usage file as a slice: whether it is accepted, a domain's body as a stretch of it, and a vCPU's figures.

#![tactic(auto)]

ghost use Rattle.std.specs.Prelude.{◌≡◌, ◌+◌, ◌*◌, ◌^◌, ◌≤◌, ◌<◌, length};
ghost use Rattle.big_endian.specs.Numbers.{number};
ghost use Rattle.service.specs.Service.{value, held};
ghost use Rattle.usage_layout.specs.Reading.{all, offset_in, vcpus_in, line_right, weighed, shaped, vcpus_each};
ghost use Rattle.usage_parse.specs.Domains.{count_in, answer_at, stretch_at, place_at, vcpus_of, weight_at, service_at};

use big_endian::BigEndian;
use service::Service;
use system::{Answer, MAX_DOMAINS, MAX_VCPUS};
use usage_layout::MAGIC;

// ---- numbers

// The number of that word. Cut to its own bytes: a length that is known leaves no test.
fn word_at(s: &[u8], at: usize) -> u32
    requires { at + 4 ≤ length s.now }
    ensures { result ≡ number s.now at 4 }
{
    u32::read_at(&s[at..at + 4], 0)
}

// ---- what is accepted

// A domain's line in the table of contents: where its body starts, and how many vCPUs that has.
#[derive(Clone, Copy)]
struct Line {
    offset: usize,
    vcpus: usize,
}

fn line_at(s: &[u8], d: usize) -> Line
    requires few { d < 16 }
    requires line_within { 12 + d * 6 ≤ length s.now }
    ensures offset { (result.offset ≡ offset_in s.now d) × (result.offset < 2 ^ 32) }
    ensures vcpus { (result.vcpus ≡ vcpus_in s.now d) × (result.vcpus < 2 ^ 16) }
{
    Line {
        offset: word_at(s, 6 + d * 6) as usize,
        vcpus: u16::read_at(s, 10 + d * 6) as usize,
    }
}

// Whether the line of domain d names the place that is due, and k vCPUs.
fn line_right(s: &[u8], n: usize, k: usize, d: usize) -> bool
    requires line_within { 12 + d * 6 ≤ length s.now }
    requires few { (d < 16) × (n ≤ 16) × (k ≤ 8) }
    ensures { result ≡ line_right s.now n k d }
{
    let line = line_at(s, d);
    line.offset == 6 + n * 6 + d * (k * 20) && line.vcpus == k
}

// Whether the line of each domain does.
fn lines_right(s: &[u8], n: usize, k: usize) -> bool
    requires lines_within { 6 + n * 6 ≤ length s.now }
    requires few { (n ≤ 16) × (k ≤ 8) }
    ensures { result ≡ all n (line_right s.now n k) }
{
    (0..n).all(|d| line_right(s, n, k, d))
}

// Whether each of m vCPUs, from byte `from` on, has a weight of at least 1.
fn weighed(s: &[u8], from: usize, m: usize) -> bool
    requires vcpus_within { from + m * 20 ≤ length s.now }
    requires few { m ≤ 128 }
    ensures { result ≡ weighed s.now from m }
{
    (0..m).all(|i| 1 <= word_at(s, from + i * 20))
}

// Whether it has n domains of k vCPUs each, every line right, every weight at least 1, and no byte after the last body.
#[tactic(auto, unfolding(usage_layout::specs::Reading::shaped))]
fn shaped(s: &[u8], n: usize, k: usize) -> bool
    ensures { result ≡ shaped s.now n k }
{
    n <= MAX_DOMAINS
        && k <= MAX_VCPUS
        && s.len() == 6 + n * 6 + n * (k * 20)
        && lines_right(s, n, k)
        && weighed(s, 6 + n * 6, n * k)
}

// The vCPU count of the first line, 0 where there is no line.
fn vcpus_each(s: &[u8]) -> usize
    ensures { result ≡ vcpus_each s.now }
{
    if s.len() < 12 { 0 } else { line_at(s, 0).vcpus }
}

/// The domain count of a file, if it is accepted.
pub fn domain_count(file: &[u8]) -> Option<usize>
    ensures { result ≡ count_in file.now }
{
    if file.len() < 6 {
        return None;
    }
    if !file.starts_with(&MAGIC) {
        return None;
    }
    let n = u16::read_at(file, 4) as usize;
    shaped(file, n, vcpus_each(file)).then_some(n)
}

// ---- one domain

/// What is told of a domain of a file with that count; a count above the sizes is no file's.
pub fn answer_at(count: Option<usize>, domain: usize) -> Answer
    ensures { result ≡ answer_at count domain }
{
    match count {
        Some(n) if domain < n && n <= MAX_DOMAINS => Answer::Done,
        Some(n) if n <= MAX_DOMAINS => Answer::NotInFile,
        _ => Answer::BadFile,
    }
}

/// A domain's body: that stretch of the slice, found from the table of contents; an empty one where there is none.
pub fn body_at(file: &[u8], count: Option<usize>, domain: usize) -> &[u8]
    ensures body { result.now ≡ stretch_at file.now count domain }
    ensures place { result.ref_ptr ≡ place_at file.entry count domain }
{
    let none = &file[..0];
    let Some(n) = count else {
        return none;
    };
    if MAX_DOMAINS < n || n <= domain || file.len() < 12 + domain * 6 {
        return none;
    }
    let line = line_at(file, domain);
    let end = line.offset + line.vcpus * 20;
    if file.len() < end {
        return none;
    }
    &file[line.offset..end]
}

// ---- one vCPU of a body

/// How many vCPUs a body has.
pub fn vcpu_count(body: &[u8]) -> usize
    ensures { result ≡ vcpus_of body.now }
{
    body.len() / 20
}

/// A vCPU's weight; 0 for one that the body has not.
// No Option: the 0 is promised.
pub fn weight_at(body: &[u8], vcpu: usize) -> u32
    ensures { result ≡ weight_at body.now vcpu }
{
    if vcpu_count(body) <= vcpu {
        return 0;
    }
    word_at(body, vcpu * 20)
}

/// A vCPU's service; 0 for one that the body has not.
// No Option: the 0 is promised.
pub fn service_at(body: &[u8], vcpu: usize) -> Service
    ensures held { result ≡ held (service_at body.now vcpu) }
    ensures exact { value result ≡ service_at body.now vcpu }
{
    if vcpu_count(body) <= vcpu {
        return [0; 4];
    }
    let at = vcpu * 20 + 4;
    [
        word_at(body, at + 12),
        word_at(body, at + 8),
        word_at(body, at + 4),
        word_at(body, at),
    ]
}
