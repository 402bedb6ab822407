//! The primes that the engine works with, and the arithmetic of their residues.

ghost use Rattle.std.specs.Prelude.{◌≡◌, ℕ, ◌+◌, ◌*◌, ◌%◌, ◌<◌, ◌≤◌, IfSome, IfNone};
ghost use Rattle.pq_base.specs.Prime.{prime_value, IsOffered};

/// A prime. Its residues are the numbers below it, each a `u8`.
#[derive(Clone, Copy, Debug, PartialEq, Eq)]
pub enum Prime {
    P2,
    P3,
    P5,
    P7,
}

impl Prime {
    /// The prime of this value, or `None` where the engine offers no such prime.
    pub fn of(n: u8) -> Option<Prime>
        ensures some { IfSome result (λ q. prime_value q ≡ n) }
        ensures none { IfNone result (¬ IsOffered n) }
    {
        match n {
            2 => Some(Prime::P2),
            3 => Some(Prime::P3),
            5 => Some(Prime::P5),
            7 => Some(Prime::P7),
            _ => None,
        }
    }

    /// The prime as a number.
    pub fn value(self) -> u8
        ensures value { result ≡ prime_value self }
        ensures offered { IsOffered result }
        ensures at_least { 2 ≤ result }
        ensures below { result < 8 }
    {
        match self {
            Prime::P2 => 2,
            Prime::P3 => 3,
            Prime::P5 => 5,
            Prime::P7 => 7,
        }
    }

    /// The sum of two residues.
    pub fn add(self, a: u8, b: u8) -> u8
        requires left { a < prime_value self }
        requires right { b < prime_value self }
        ensures sum { result ≡ (a + b) % prime_value self }
        ensures residue { result < prime_value self }
    {
        (a + b) % self.value()
    }

    /// The product of two residues.
    pub fn mul(self, a: u8, b: u8) -> u8
        requires left { a < prime_value self }
        requires right { b < prime_value self }
        ensures product { result ≡ (a * b) % prime_value self }
        ensures residue { result < prime_value self }
    {
        a * b % self.value()
    }

    /// The residue that makes 0 with `a`.
    pub fn neg(self, a: u8) -> u8
        requires { a < prime_value self }
        ensures cancels { (a + result) % prime_value self ≡ 0 }
        ensures residue { result < prime_value self }
    {
        if a == 0 { 0 } else { self.value() - a }
    }

    /// The residue that makes 1 with `a`, which isn't 0.
    pub fn inv(self, a: u8) -> u8
        requires unit { 0 < a }
        requires residue { a < prime_value self }
        ensures inverse { (a * result) % prime_value self ≡ 1 }
        ensures residue { result < prime_value self }
    {
        match (self, a) {
            (Prime::P5, 2) => 3,
            (Prime::P5, 3) => 2,
            (Prime::P7, 2) => 4,
            (Prime::P7, 3) => 5,
            (Prime::P7, 4) => 2,
            (Prime::P7, 5) => 3,
            // 1 and -1 are their own inverses
            _ => a,
        }
    }
}
