//! Steps of certificates.

ghost use Rattle.std.specs.Prelude.{◌≡◌};

use crate::source::RowSource;
use crate::tail_line::CertTail;
use std::marker::Model;

/// A step to a class: where its rows come from, and which tails they eliminate.
#[derive(Debug, Drop)]
pub struct CertStep {
    sources: Vec<RowSource>,
    tails: Vec<CertTail>,
}

impl Model for CertStep {
    ghost use Rattle.derivation_log.specs.Certificates.{StepLines};

    ghost Value = { StepLines };

    ghost view = { λ s. record { sources = s.sources.items; tails = s.tails.items } };
}

impl CertStep {
    /// The step of these parts, whatever their numbers are. Takes no memory.
    pub fn of(sources: Vec<RowSource>, tails: Vec<CertTail>) -> CertStep
        ensures { result ≡ record { sources = sources.items; tails = tails.items } }
    {
        CertStep { sources, tails }
    }

    /// What its rows come from.
    pub fn sources(&self) -> &[RowSource]
        ensures { result.now ≡ self.now.sources }
    {
        self.sources.as_slice()
    }

    /// The tails that are eliminated.
    pub fn tails(&self) -> &[CertTail]
        ensures { result.now ≡ self.now.tails }
    {
        self.tails.as_slice()
    }
}
