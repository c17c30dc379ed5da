//! A usage file as text: a domain's body, or the first domains by a count that is kept beside the file.

#![tactic(auto, using(crate::proofs::Page::files))]

ghost use Rattle.std.specs.Prelude.{◌≡◌, take};
ghost use Rattle.page.specs.UsageFile.{body_text, text_by, body_text_of, file_text_of};

use usage_text::{BodyText, FileText};

pub fn body_text(domain: u64, body: &[u8]) -> BodyText
    ensures value { result ≡ body_text_of domain body.now }
    ensures text { take result.length result.bytes ≡ body_text domain body.now }
{
    usage_text::body_text(domain, body)
}

pub fn file_text(file: &[u8], count: Option<usize>, n: usize) -> FileText
    ensures value { result ≡ file_text_of count (text_by file.now count n) }
    ensures text { take result.length result.bytes ≡ text_by file.now count n }
    ensures count { result.count ≡ count }
{
    usage_text::file_text(file, count, n)
}
