//! A reader that is opened once on a usage file and then answers for each domain. The work is done by
//! `usage_parse`, on the slice; the methods of `Reader` are thin.

#![tactic(auto)]

ghost use Rattle.std.specs.Prelude.{◌≡◌, take};
ghost use Rattle.io.specs.Counts.{IsPrefixLen};
ghost use Rattle.usage_parse.specs.Domains.{count_in, answer_at, stretch_at, place_at, answer_of, stretch_of, place_of};
ghost use Rattle.usage_text.specs.FileText.{file_lines, lines_of, file_text_of};

use system::Answer;
use usage_parse::{answer_at, body_at, domain_count};
use usage_text::{FileText, file_text};

/// A file, and its domain count, if it is accepted.
#[derive(Clone, Copy)]
pub struct Reader<'a> {
    file: &'a [u8],
    count: Option<usize>,
}

impl<'a> Reader<'a> {
    /// A reader of a file.
    pub fn open(file: &'a [u8]) -> Self
        ensures { (result.file ≡ file.entry) × (result.count ≡ count_in file.now) }
    {
        Reader {
            file,
            count: domain_count(file),
        }
    }

    /// What is told of a domain.
    pub fn answer(self, domain: usize) -> Answer
        ensures { result ≡ answer_at self.entry.count domain }
    {
        answer_at(self.count, domain)
    }

    /// A domain's body: that stretch of the file itself, empty unless the answer is Done.
    pub fn body(self, domain: usize) -> &'a [u8]
        ensures body { result.now ≡ stretch_at self.entry.file.now self.entry.count domain }
        ensures place { result.ref_ptr ≡ place_at self.entry.file self.entry.count domain }
    {
        body_at(self.file, self.count, domain)
    }

    /// The lines of its first n domains, of at most sixteen, each from that domain's body.
    pub fn text(self, n: usize) -> FileText
        ensures value { result ≡ file_text_of self.entry.count (file_lines self.entry.file.now self.entry.count n) }
        ensures prefix_len { IsPrefixLen result.length result.bytes }
        ensures lines { take result.length result.bytes ≡ file_lines self.entry.file.now self.entry.count n }
        ensures count { result.count ≡ self.entry.count }
    {
        file_text(self.file, self.count, n)
    }
}

/// What a reader of the file tells of a domain.
pub fn answer_of(file: &[u8], domain: usize) -> Answer
    ensures { result ≡ answer_of file.now domain }
{
    Reader::open(file).answer(domain)
}

/// The body that a reader of the file gives for a domain.
pub fn body_of(file: &[u8], domain: usize) -> &[u8]
    ensures { (result.now ≡ stretch_of file.now domain) × (result.ref_ptr ≡ place_of file.entry domain) }
{
    Reader::open(file).body(domain)
}

/// The lines of the first n domains that a reader of the file gives: it is opened once.
pub fn text_of(file: &[u8], n: usize) -> FileText
    ensures value { result ≡ file_text_of (count_in file.now) (lines_of file.now n) }
    ensures prefix_len { IsPrefixLen result.length result.bytes }
    ensures lines { take result.length result.bytes ≡ lines_of file.now n }
    ensures count { result.count ≡ count_in file.now }
{
    Reader::open(file).text(n)
}
