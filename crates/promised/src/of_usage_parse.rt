//! A usage file as a slice.

#![tactic(auto, using(crate::proofs::Page::files))]

ghost use Rattle.std.specs.Prelude.{◌≡◌};
ghost use Rattle.page.specs.Policy.{number, four};
ghost use Rattle.page.specs.Steps.{number_of};
ghost use Rattle.page.specs.UsageFile.{count, told_by, body_by, start_by, further};
ghost use Rattle.page.specs.UsageFile.{vcpus_of_body, weight_of_body, service_of_body};

use service::Service;
use system::Answer;

pub fn domain_count(file: &[u8]) -> Option<usize>
    ensures { result ≡ count file.now }
{
    usage_parse::domain_count(file)
}

pub fn answer_at(count: Option<usize>, domain: usize) -> Answer
    ensures { number_of result ≡ told_by count domain }
{
    usage_parse::answer_at(count, domain)
}

/// It is that stretch of the slice itself, by its bytes and by its place in memory.
pub fn body_at(file: &[u8], count: Option<usize>, domain: usize) -> &[u8]
    ensures bytes { result.now ≡ body_by file.now count domain }
    ensures place { result.ref_ptr ≡ further file.entry.ref_ptr (start_by file.now count domain) }
{
    usage_parse::body_at(file, count, domain)
}

pub fn vcpu_count(body: &[u8]) -> usize
    ensures { result ≡ vcpus_of_body body.now }
{
    usage_parse::vcpu_count(body)
}

pub fn weight_at(body: &[u8], vcpu: usize) -> u32
    ensures { result ≡ weight_of_body body.now vcpu }
{
    usage_parse::weight_at(body, vcpu)
}

pub fn service_at(body: &[u8], vcpu: usize) -> Service
    ensures limbs { result ≡ four (service_of_body body.now vcpu) }
    ensures exact { number result ≡ service_of_body body.now vcpu }
{
    usage_parse::service_at(body, vcpu)
}
