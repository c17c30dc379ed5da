//! What a reader of a usage file tells of a domain, the body that it gives, and the lines of the file's first domains.

#![tactic(auto, using(crate::proofs::Page::files))]

ghost use Rattle.std.specs.Prelude.{◌≡◌, take};
ghost use Rattle.page.specs.Steps.{number_of};
ghost use Rattle.page.specs.UsageFile.{told, body, body_start, further, count, file_text, file_text_of};

use system::Answer;
use usage_text::FileText;

pub fn answer_of(file: &[u8], domain: usize) -> Answer
    ensures { number_of result ≡ told file.now domain }
{
    usage_read::answer_of(file, domain)
}

/// It is that stretch of the file itself, by its bytes and by its place in memory.
pub fn body_of(file: &[u8], domain: usize) -> &[u8]
    ensures bytes { result.now ≡ body file.now domain }
    ensures place { result.ref_ptr ≡ further file.entry.ref_ptr (body_start file.now domain) }
{
    usage_read::body_of(file, domain)
}

pub fn text_of(file: &[u8], n: usize) -> FileText
    ensures value { result ≡ file_text_of (count file.now) (file_text file.now n) }
    ensures text { take result.length result.bytes ≡ file_text file.now n }
    ensures count { result.count ≡ count file.now }
{
    usage_read::text_of(file, n)
}
