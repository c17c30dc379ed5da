//! Lines of numbers, and the number that a word says.

#![tactic(auto, using(crate::proofs::Page::lines))]

ghost use Rattle.std.specs.Prelude.{◌≡◌, take};
ghost use Rattle.page.specs.Policy.{number};
ghost use Rattle.page.specs.Numbers.{number_in};
ghost use Rattle.page.specs.Lines.{numbers_line, pcpu_line, usage_line, line_of, append, past, put_answer, past_answer};

use service::Service;
use text::Line;

pub fn put_answer_line(out: &mut [u8], at: usize, number: u64, answer: u64, moves: u64) -> usize
    ensures line_written { out.new ≡ put_answer out.old at number answer moves }
    ensures next_place { result ≡ past_answer out.old at number answer moves }
{
    text::put_answer_line(out, at, number, answer, moves)
}

pub fn numbers_line(numbers: &[u64]) -> Line
    ensures line { result ≡ line_of (numbers_line (take 9 numbers.now)) }
    ensures text { take result.length result.bytes ≡ numbers_line (take 9 numbers.now) }
{
    text::numbers_line(numbers)
}

pub fn pcpu_line(pcpu: u64, dom: u64, vcpu: u64) -> Line
    ensures line { result ≡ line_of (pcpu_line pcpu dom vcpu) }
    ensures text { take result.length result.bytes ≡ pcpu_line pcpu dom vcpu }
{
    text::pcpu_line(pcpu, dom, vcpu)
}

pub fn usage_line(domain: u64, vcpu: u64, weight: u64, service: Service) -> Line
    ensures line { result ≡ line_of (usage_line domain vcpu weight (number service)) }
    ensures text { take result.length result.bytes ≡ usage_line domain vcpu weight (number service) }
{
    text::usage_line(domain, vcpu, weight, service)
}

pub fn append(out: &mut [u8], at: usize, line: &[u8]) -> usize
    ensures line_written { out.new ≡ append out.old at line.now }
    ensures next_place { result ≡ past out.old at line.now }
{
    text::append(out, at, line)
}

pub fn number_in(word: &[u8]) -> Option<u64>
    ensures { result ≡ number_in word.now }
{
    text::number_in(word)
}
