//! A service, as four limbs.

#![tactic(auto, using(crate::proofs::Page::leaves))]

ghost use Rattle.std.specs.Prelude.{◌≡◌};
ghost use Rattle.page.specs.Policy.{four};
ghost use Rattle.page.specs.Leaves.{sum, product, quotient, difference, less, more_deserving};

use service::Service;

pub fn from_u64(x: u64) -> Service
    ensures { result ≡ four x }
{
    service::from_u64(x)
}

pub fn sum(a: Service, b: Service) -> Service
    ensures { result ≡ sum a b }
{
    service::sum(a, b)
}

pub fn product(a: Service, weight: u32) -> Service
    ensures { result ≡ product a weight }
{
    service::product(a, weight)
}

pub fn quotient(a: Service, weight: u32) -> Service
    ensures { result ≡ quotient a weight }
{
    service::quotient(a, weight)
}

pub fn difference(a: Service, b: Service) -> Service
    ensures { result ≡ difference a b }
{
    service::difference(a, b)
}

pub fn less(a: Service, b: Service) -> bool
    ensures { result ≡ less a b }
{
    service::less(a, b)
}

pub fn more_deserving(a: Service, a_weight: u32, b: Service, b_weight: u32) -> bool
    ensures { result ≡ more_deserving a a_weight b b_weight }
{
    service::more_deserving(a, a_weight, b, b_weight)
}
