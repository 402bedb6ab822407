//! Lines of certificates: tails that are eliminated.

ghost use Rattle.std.specs.Prelude.{◌≡◌};

use std::marker::Model;

/// A tail that is eliminated in a step: it equals the sum of the tails of `kept`, each times its coefficient, as the sum of the rows
/// of the sources of `sums` shows, each times its coefficient. Tails and sources count from 1.
#[derive(Debug, Drop)]
pub struct CertTail {
    tail: u16,
    kept: Vec<(u16, u8)>,
    sums: Vec<(u16, u8)>,
}

impl Model for CertTail {
    ghost use Rattle.derivation_log.specs.Certificates.{TailLine};

    ghost Value = { TailLine };

    ghost view = { λ l. record { tail = l.tail; kept = l.kept.items; sums = l.sums.items } };
}

impl CertTail {
    /// The line of these parts, whatever their numbers are. Takes no memory.
    pub fn of(tail: u16, kept: Vec<(u16, u8)>, sums: Vec<(u16, u8)>) -> CertTail
        ensures { result ≡ record { tail = tail; kept = kept.items; sums = sums.items } }
    {
        CertTail { tail, kept, sums }
    }

    /// The number of the tail.
    pub fn tail(&self) -> u16
        ensures { result ≡ self.now.tail }
    {
        self.tail
    }

    /// The numbers of the tails that it is a sum of, with their coefficients.
    pub fn kept(&self) -> &[(u16, u8)]
        ensures { result.now ≡ self.now.kept }
    {
        self.kept.as_slice()
    }

    /// The numbers of the sources whose rows show it, with their coefficients.
    pub fn sums(&self) -> &[(u16, u8)]
        ensures { result.now ≡ self.now.sums }
    {
        self.sums.as_slice()
    }
}
