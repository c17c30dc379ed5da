//! Lines of decimal numbers, how a line is put into a slice, and the number that a word says.

#![tactic(auto)]

ghost use Rattle.std.specs.Prelude.{◌≡◌, ◌+◌, ◌/◌, ◌%◌, ◌≤◌, ◌<◌, [], ◌∷◌, length, take};
ghost use Rattle.service.specs.Service.{value};
ghost use Rattle.text.specs.Lines.{digits, decimal, wide_decimal, field, fields, numbers_line, pcpu_line, usage_line};
ghost use Rattle.text.specs.Numerals.{number_in};
ghost use Rattle.text.specs.Places.{Placed, line_of, text_of, appended, end_of};
ghost use Rattle.text.specs.AnswerPlaces.{answer_put, answer_end};

use service::Service;

/// The most bytes that what a record is told takes.
pub const ANSWER_ROOM: usize = 63;
/// The most bytes that a line holds.
pub const LINE_ROOM: usize = 192;

/// A line: its text is the first `length` bytes.
// no `ArrayVec`, which is never `Copy` and has no zeros past its end
#[derive(Clone, Copy)]
pub struct Line {
    pub bytes: [u8; LINE_ROOM],
    pub length: usize,
}

// ---- parts, put at index `at` of a slice: each answers the index past it
// Straight into what is written: a line made apart and then copied costs a replayed record 10 ns.

fn put_byte(out: &mut [u8], at: usize, b: u8) -> usize
    requires { at < length out.old }
    ensures { Placed out.old at (b ∷ []) out.new result }
{
    out[at] = b;
    at + 1
}

// How many decimal digits n has.
fn width(n: u64) -> usize
    ensures { result ≡ length (decimal n) }
{
    match n.checked_ilog10() {
        None => 1,
        Some(k) => k as usize + 1,
    }
}

fn put_number(out: &mut [u8], at: usize, n: u64) -> usize
    requires { at + 20 ≤ length out.old }
    ensures placed { Placed out.old at (decimal n) out.new result }
    ensures upper_bound { result ≤ at + 20 }
{
    // most numbers have one digit: without this a line for a record takes three times as long
    if n < 10 {
        return put_byte(out, at, b'0' + n as u8);
    }
    let end = at + width(n);
    itoa::write_digits(n, out, end);
    end
}

fn put_field(out: &mut [u8], at: usize, n: u64) -> usize
    requires { at + 21 ≤ length out.old }
    ensures placed { Placed out.old at (field n) out.new result }
    ensures upper_bound { result ≤ at + 21 }
{
    let past = put_byte(out, at, b' ');
    put_number(out, past, n)
}

// The first nine numbers, a space before each.
fn put_fields(out: &mut [u8], at: usize, numbers: &[u64]) -> usize
    requires { at + 189 ≤ length out.old }
    ensures placed { Placed out.old at (fields (take 9 numbers.now)) out.new result }
    ensures upper_bound { result ≤ at + 189 }
{
    let mut past = at;
    for &n in &numbers[..numbers.len().min(9)] {
        past = put_field(out, past, n);
    }
    past
}

// The last digit of n, as text: 2^32 ends in 6, and so does each power of it.
fn last_digit(n: Service) -> u8
    ensures { result ≡ 48 + value n % 10 }
{
    let upper = n[1] as u64 + n[2] as u64 + n[3] as u64;
    b'0' + ((upper * 6 + n[0] as u64) % 10) as u8
}

fn tenth(n: Service) -> Service
    ensures { value result ≡ value n / 10 }
{
    service::quotient(n, 10)
}

// The last of n's decimal digits, at most k of them.
fn put_digits(out: &mut [u8], at: usize, k: usize, n: Service) -> usize
    requires { at + k ≤ length out.old }
    ensures placed { Placed out.old at (digits k (value n)) out.new result }
    ensures upper_bound { result ≤ at + k }
{
    if k == 0 {
        return at;
    }
    let last = last_digit(n);
    if service::less(n, [10, 0, 0, 0]) {
        return put_byte(out, at, last);
    }
    let past = put_digits(out, at, k - 1, tenth(n));
    put_byte(out, past, last)
}

fn put_wide(out: &mut [u8], at: usize, n: Service) -> usize
    requires { at + 39 ≤ length out.old }
    ensures placed { Placed out.old at (wide_decimal (value n)) out.new result }
    ensures upper_bound { result ≤ at + 39 }
{
    put_digits(out, at, 39, n)
}

// ---- lines

/// Puts what a record is told at index `at`: its number, the answer and the moves; where there are
/// not 63 bytes from there on, which is room for any such line, nothing. Answers the index past it.
pub fn put_answer_line(out: &mut [u8], at: usize, number: u64, answer: u64, moves: u64) -> usize
    ensures written { out.new ≡ answer_put out.old at number answer moves }
    ensures past { result ≡ answer_end out.old at number answer moves }
{
    if out.len() < ANSWER_ROOM || out.len() - ANSWER_ROOM < at {
        return at;
    }
    let a = put_number(out, at, number);
    let b = put_field(out, a, answer);
    let c = put_field(out, b, moves);
    put_byte(out, c, b'\n')
}

/// The first nine of some numbers, a space before each.
pub fn numbers_line(numbers: &[u64]) -> Line
    ensures line { result ≡ line_of (numbers_line (take 9 numbers.now)) }
    ensures text { text_of result ≡ numbers_line (take 9 numbers.now) }
    ensures within { result.length ≤ 192 }
{
    let mut bytes = [0u8; LINE_ROOM];
    let a = put_fields(&mut bytes, 0, numbers);
    let length = put_byte(&mut bytes, a, b'\n');
    Line { bytes, length }
}

/// An occupied pCPU, marked ` p`, and its holder.
pub fn pcpu_line(pcpu: u64, dom: u64, vcpu: u64) -> Line
    ensures line { result ≡ line_of (pcpu_line pcpu dom vcpu) }
    ensures text { text_of result ≡ pcpu_line pcpu dom vcpu }
    ensures within { result.length ≤ 192 }
{
    let mut bytes = [0u8; LINE_ROOM];
    let a = put_byte(&mut bytes, 0, b' ');
    let b = put_byte(&mut bytes, a, b'p');
    let c = put_field(&mut bytes, b, pcpu);
    let d = put_field(&mut bytes, c, dom);
    let e = put_field(&mut bytes, d, vcpu);
    let length = put_byte(&mut bytes, e, b'\n');
    Line { bytes, length }
}

/// What a usage file says of a vCPU: whose it is, its weight and its service.
pub fn usage_line(domain: u64, vcpu: u64, weight: u64, service: Service) -> Line
    ensures line { result ≡ line_of (usage_line domain vcpu weight (value service)) }
    ensures text { text_of result ≡ usage_line domain vcpu weight (value service) }
    ensures within { result.length ≤ 192 }
{
    let mut bytes = [0u8; LINE_ROOM];
    let a = put_number(&mut bytes, 0, domain);
    let b = put_field(&mut bytes, a, vcpu);
    let c = put_field(&mut bytes, b, weight);
    let d = put_byte(&mut bytes, c, b' ');
    let e = put_wide(&mut bytes, d, service);
    let length = put_byte(&mut bytes, e, b'\n');
    Line { bytes, length }
}

/// Puts a line at index `at`, if it fits there, and answers the index past it.
pub fn append(out: &mut [u8], at: usize, line: &[u8]) -> usize
    ensures written { out.new ≡ appended out.old at line.now }
    ensures past { result ≡ end_of out.old at line.now }
{
    let n = line.len();
    if out.len() < at || out.len() - at < n {
        return at;
    }
    out[at..at + n].copy_from_slice(line);
    at + n
}

// ---- words

/// The number that a word of decimal digits says, if it is one of 64 bits; leading zeros are fine.
// std's `parse` takes a sign, which is no digit
pub fn number_in(word: &[u8]) -> Option<u64>
    ensures { result ≡ number_in word.now }
{
    if word.is_empty() {
        return None;
    }
    let mut n: u64 = 0;
    for &b in word {
        if !b.is_ascii_digit() {
            return None;
        }
        n = n.checked_mul(10)?.checked_add((b - b'0') as u64)?;
    }
    Some(n)
}
