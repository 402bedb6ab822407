//! What is asked for of a sample: the prime and the class of its largest quotient.

ghost use Rattle.std.specs.Prelude.{◌≡◌};
ghost use Rattle.pq_base.specs.Prime.{prime_value};
ghost use Rattle.samples.specs.Samples.{sample_prime, sample_class};

use pq_base::Prime;

/// The class that the largest quotient is asked for.
pub const SAMPLE_CLASS: u8 = 6;

/// The prime that goes with the sample of a number: 2, 3, 5 and 7 in turn.
pub fn sample_prime(n: u32) -> Prime
    ensures { prime_value result ≡ sample_prime n }
{
    match n % 4 {
        0 => Prime::P2,
        1 => Prime::P3,
        2 => Prime::P5,
        _ => Prime::P7,
    }
}

/// The constant is the class that the definitions name.
pub fn constant_is_the_class()
    ensures { SAMPLE_CLASS ≡ sample_class }
{}
