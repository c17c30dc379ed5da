//! The service of a vCPU: a number of 128 bits as four limbs of 32 bits, the least first, that
//! stops at 2^128 - 1 and at 0.

#![tactic(auto)]

ghost use Rattle.std.specs.Prelude.{◌≡◌, ◌+◌, ◌*◌, ◌-◌, ◌/◌, ◌^◌, ◌<◌, max, ltb};
ghost use Rattle.service.specs.Service.{value, held, more_deserving};

/// A service, as four limbs, the least first.
pub type Service = [u32; 4];

// What two limbs are worth.
fn double(high: u32, low: u32) -> u64
    ensures { result ≡ high * 2 ^ 32 + low }
{
    u64::from(high) << 32 | u64::from(low)
}

// What the limbs are worth.
#[tactic(auto, unfolding(crate::specs::Service::value))]
fn value(n: Service) -> u128
    ensures { result ≡ value n }
{
    let [a, b, c, d] = n;
    u128::from(double(d, c)) << 64 | u128::from(double(b, a))
}

// The limbs of a number.
#[tactic(auto, unfolding(crate::specs::Service::held, crate::specs::Service::limbs))]
fn held(x: u128) -> Service
    ensures { result ≡ held x }
{
    [x, x >> 32, x >> 64, x >> 96].map(|n| (n % 0x1_0000_0000) as u32)
}

/// The service that is worth x.
pub fn from_u64(x: u64) -> Service
    ensures { result ≡ held x }
{
    held(u128::from(x))
}

/// The sum of two services.
#[tactic(auto, unfolding(crate::specs::Service::held))]
pub fn sum(a: Service, b: Service) -> Service
    ensures { result ≡ held (value a + value b) }
{
    held(value(a).saturating_add(value(b)))
}

/// The service times a weight.
#[tactic(auto, unfolding(crate::specs::Service::held))]
pub fn product(a: Service, weight: u32) -> Service
    ensures { result ≡ held (value a * weight) }
{
    held(value(a).saturating_mul(u128::from(weight)))
}

// Long division of the upper two limbs at once and then of one after the other. A `u128` is divided by a call, which
// takes 30 to 38 ns for a service of more than 64 bits; this takes 20 to 25.
#[tactic(auto, using(std::proofs::lemmas::Grind::common_steps, crate::proofs::Division::digit, crate::proofs::Division::divides))]
fn divide(high: u64, middle: u32, low: u32, weight: u32) -> u128
    requires { 0 < weight }
    ensures { result ≡ ((high * 2 ^ 32 + middle) * 2 ^ 32 + low) / weight }
{
    let w = u64::from(weight);
    let next = double((high % w) as u32, middle);
    let last = double((next % w) as u32, low);
    let digits = double((next / w) as u32, (last / w) as u32);
    u128::from(high / w) << 64 | u128::from(digits)
}

/// The service over a weight, rounded down; a weight of 0 reads as 1.
#[tactic(auto, unfolding(crate::specs::Service::value))]
pub fn quotient(a: Service, weight: u32) -> Service
    ensures { result ≡ held (value a / max weight 1) }
{
    let [lowest, low, high, highest] = a;
    held(divide(double(highest, high), low, lowest, weight.max(1)))
}

/// What a has over b, or nothing.
pub fn difference(a: Service, b: Service) -> Service
    ensures { result ≡ held (value a - value b) }
{
    held(value(a).saturating_sub(value(b)))
}

/// Whether a is below b.
pub fn less(a: Service, b: Service) -> bool
    ensures { result ≡ ltb (value a) (value b) }
{
    value(a) < value(b)
}

// The order of services of 64 bits: no product is held.
#[tactic(auto, unfolding(crate::specs::Service::more_deserving))]
fn short_deserving(x: u64, w: u32, y: u64, v: u32) -> bool
    ensures { result ≡ more_deserving x w y v }
{
    u128::from(x) * u128::from(v) < u128::from(y) * u128::from(w)
}

// The order of any two.
#[tactic(auto, unfolding(crate::specs::Service::more_deserving))]
fn long_deserving(a: Service, w: u32, b: Service, v: u32) -> bool
    ensures { result ≡ more_deserving (value a) w (value b) v }
{
    value(a).saturating_mul(u128::from(v)) < value(b).saturating_mul(u128::from(w))
}

/// Whether a has had less service for its weight than b: a's service times b's weight is below b's times a's.
#[tactic(auto, unfolding(crate::specs::Service::value))]
pub fn more_deserving(a: Service, a_weight: u32, b: Service, b_weight: u32) -> bool
    ensures { result ≡ more_deserving (value a) a_weight (value b) b_weight }
{
    // Most services are of 64 bits, and then no product is held: 2 ns, where the last line takes 4.
    if let ([a0, a1, 0, 0], [b0, b1, 0, 0]) = (a, b) {
        return short_deserving(double(a1, a0), a_weight, double(b1, b0), b_weight);
    }
    long_deserving(a, a_weight, b, b_weight)
}
