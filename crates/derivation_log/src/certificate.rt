//! Certificates as values.

ghost use Rattle.std.specs.Prelude.{◌≡◌, IfSome, IfNone, OnSome};
ghost use Rattle.pq_base.specs.Prime.{prime_value};
ghost use Rattle.derivation_log.specs.Certificates.{steps_of};
ghost use Rattle.derivation_log.specs.CertificateForms.{first_version, IsCertificate};

use crate::forms::are_parts;
use crate::source::Run;
use crate::step_lines::CertStep;
use lpres_reader::LPres;
use pc_presentation::Answer;
use pq_base::Prime;
use std::marker::Model;

/// A certificate: a presentation, a prime and a class, the steps of a computation for them, and its answer. It keeps the conditions
/// of the text of certificates; whether it is valid is another matter.
#[derive(Debug, Drop)]
pub struct Cert {
    version: u8,
    pres: LPres,
    prime: Prime,
    asked: u8,
    iterated: Vec<CertStep>,
    whole: Vec<CertStep>,
    answer: Answer,
}

impl Model for Cert {
    ghost use Rattle.pq_base.specs.Prime.{prime_value};
    ghost use Rattle.derivation_log.specs.Certificates.{Certificate, certificate_of};
    ghost use Rattle.derivation_log.specs.CertificateForms.{IsCertificate};

    ghost Value = { Certificate };

    ghost view = { λ c. certificate_of c.version c.pres (prime_value c.prime) c.asked c.iterated.items c.whole.items c.answer };

    ghost invariant = { λ c. IsCertificate (
        certificate_of c.version c.pres (prime_value c.prime) c.asked c.iterated.items c.whole.items c.answer) };
}

impl Cert {
    /// The certificate of these parts, or `None` where they break a condition of a certificate. The parts are dropped then. Takes no
    /// memory.
    pub fn of(
        pres: LPres,
        prime: Prime,
        asked: u8,
        iterated: Vec<CertStep>,
        whole: Vec<CertStep>,
        answer: Answer,
    ) -> Option<Cert>
        ensures some { IfSome result (λ c. c ≡ first_version pres (prime_value prime) asked iterated.items whole.items answer) }
        ensures conditions { OnSome result (
            IsCertificate (first_version pres (prime_value prime) asked iterated.items whole.items answer)) }
        ensures none { IfNone result (¬ IsCertificate (first_version pres (prime_value prime) asked iterated.items whole.items answer)) }
    {
        if !are_parts(&pres, prime, asked, &iterated, &whole, &answer) {
            return None;
        }
        Some(Cert {
            version: 1,
            pres,
            prime,
            asked,
            iterated,
            whole,
            answer,
        })
    }

    /// The version: which covers and overlaps its steps are over.
    pub fn version(&self) -> u8
        ensures version { result ≡ self.now.version }
        ensures certificate { IsCertificate self.now }
    {
        self.version
    }

    /// The presentation.
    pub fn pres(&self) -> &LPres
        ensures { result.now ≡ self.now.presentation }
    {
        &self.pres
    }

    /// The prime.
    pub fn prime(&self) -> Prime
        ensures { prime_value result ≡ self.now.prime }
    {
        self.prime
    }

    /// The class that is asked for.
    pub fn asked(&self) -> u8
        ensures { result ≡ self.now.class }
    {
        self.asked
    }

    /// The steps of a run.
    pub fn steps(&self, run: Run) -> &[CertStep]
        ensures { result.now ≡ steps_of self.now run }
    {
        match run {
            Run::Iterated => self.iterated.as_slice(),
            Run::Whole => self.whole.as_slice(),
        }
    }

    /// The answer.
    pub fn answer(&self) -> &Answer
        ensures { result.now ≡ self.now.answer }
    {
        &self.answer
    }
}
