//! A usage file as text: a line for each vCPU, of one domain's body or of a file's domains.

#![tactic(auto)]

ghost use Rattle.std.specs.Prelude.{◌≡◌, ◌+◌, ◌≤◌, length, take};
ghost use Rattle.io.specs.Counts.{IsPrefixLen};
ghost use Rattle.text.specs.Places.{Placed};
ghost use Rattle.usage_text.specs.BodyText.{vcpu_line, body_lines, body_text_of};
ghost use Rattle.usage_text.specs.FileText.{file_lines, file_text_of};

use system::{MAX_DOMAINS, MAX_VCPUS};
use usage_parse::{body_at, service_at, vcpu_count, weight_at};

/// The most bytes that the text of a body takes: eight lines of at most 103 bytes.
pub const BODY_ROOM: usize = 824;
/// The most bytes that the text of a file takes: sixteen bodies.
pub const FILE_ROOM: usize = 13184;

/// The text of a body, the first `length` bytes.
// like a line no `ArrayVec`, and the same for a file
#[derive(Clone, Copy)]
pub struct BodyText {
    pub bytes: [u8; BODY_ROOM],
    pub length: usize,
}

/// The text of a file, the first `length` bytes, and the count of domains by which it was read.
#[derive(Clone, Copy)]
pub struct FileText {
    pub bytes: [u8; FILE_ROOM],
    pub length: usize,
    pub count: Option<usize>,
}

fn put_vcpu(out: &mut [u8], at: usize, domain: u64, body: &[u8], v: usize) -> usize
    requires { at + 103 ≤ length out.old }
    ensures placed { Placed out.old at (vcpu_line domain body.now v) out.new result }
    ensures upper_bound { result ≤ at + 103 }
{
    let weight = weight_at(body, v);
    let line = text::usage_line(domain, v as u64, weight as u64, service_at(body, v));
    text::append(out, at, &line.bytes[..line.length])
}

// A line for each vCPU of a body.
fn put_body(out: &mut [u8], at: usize, domain: u64, body: &[u8]) -> usize
    requires { at + 824 ≤ length out.old }
    ensures placed { Placed out.old at (body_lines domain body.now) out.new result }
    ensures upper_bound { result ≤ at + 824 }
{
    let mut past = at;
    for v in 0..vcpu_count(body).min(MAX_VCPUS) {
        past = put_vcpu(out, past, domain, body, v);
    }
    past
}

/// A line for each vCPU of a body, of which a domain has at most eight.
pub fn body_text(domain: u64, body: &[u8]) -> BodyText
    ensures value { result ≡ body_text_of (body_lines domain body.now) }
    ensures prefix_len { IsPrefixLen result.length result.bytes }
    ensures lines { take result.length result.bytes ≡ body_lines domain body.now }
{
    let mut bytes = [0u8; BODY_ROOM];
    let length = put_body(&mut bytes, 0, domain, body);
    BodyText { bytes, length }
}

/// The lines of the first n domains, of at most sixteen, of a file with that count.
pub fn file_text(file: &[u8], count: Option<usize>, n: usize) -> FileText
    ensures value { result ≡ file_text_of count (file_lines file.now count n) }
    ensures prefix_len { IsPrefixLen result.length result.bytes }
    ensures lines { take result.length result.bytes ≡ file_lines file.now count n }
    ensures count { result.count ≡ count }
{
    let mut bytes = [0u8; FILE_ROOM];
    let mut length: usize = 0;
    for d in 0..n.min(MAX_DOMAINS) {
        length = put_body(&mut bytes, length, d as u64, body_at(file, count, d));
    }
    FileText {
        bytes,
        length,
        count,
    }
}
