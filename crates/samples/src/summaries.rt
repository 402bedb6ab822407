//! The summary of an answer of a sample.

ghost use Rattle.std.specs.Prelude.{◌≡◌, ◌≤◌, ◌*◌, ◌∷◌, ℕ, IfOk, OnOk, length, sum, sum_by, get_or, string_bytes};
ghost use Rattle.pq_base.specs.Canonical.{numbers_from};
ghost use Rattle.pq_base.specs.Answer.{class_of};
ghost use Rattle.samples.specs.Summary.{count_of, factors_text, exponent_sum, summary_text};

use pc_presentation::{Answer, Pcp, Syllable};
use pq_base::NoMemory;
use std::alloc::Global;

/// The summary of an answer of the sample of a number, line by line: the number, the prime, the class, the rank, the numbers of
/// generators of each weight, and the exponents of all images together.
pub fn summary(alloc: Global, n: u32, answer: &Answer) -> Result<Vec<u8>, NoMemory>
    ensures { IfOk result (λ bytes. bytes.items ≡ summary_text n answer.now) }
{
    let prime = answer.pcp().prime().value();
    let class = answer.class();
    let rank = answer.pcp().rank();
    let factors = factors(alloc, answer)?;
    let images = exponent_sum(answer);
    let text = format!(in alloc;
        "sample {n}\nprime {prime}\nclass {class}\nrank {rank}\nfactors{factors}\nimages {images}\n"
    )?;
    Ok(text.into_bytes())
}

/// The numbers of generators of each weight, each behind a space.
fn factors(alloc: Global, answer: &Answer) -> Result<String, NoMemory>
    ensures { IfOk result (λ text. string_bytes text ≡ factors_text (class_of answer.now) answer.now.weights) }
{
    let mut text = String::new(alloc);
    for k in 0..answer.class() {
        let count = count_of(answer.pcp(), k + 1);
        let number = format!(in alloc; " {count}")?;
        text.push_str(&number)?;
    }
    Ok(text)
}

/// How many generators have weight k.
fn count_of(pcp: &Pcp, k: u8) -> u16
    ensures { result ≡ count_of k pcp.now.weights }
{
    let mut count = 0u16;
    for i in 0..pcp.rank() {
        if pcp.weight(i + 1) == k {
            count += 1;
        }
    }
    count
}

/// The exponents of all images together.
fn exponent_sum(answer: &Answer) -> u32
    ensures { result ≡ exponent_sum answer.now.images }
{
    // says that there are few names and few generators
    let _rank = answer.pcp().rank();
    let mut total = 0u32;
    for i in 0..answer.names().len() as u16 {
        total += exponents(answer.image(i + 1));
    }
    total
}

/// The exponents of a word together.
fn exponents(word: &[Syllable]) -> u32
    requires { length word.now ≤ 100 }
    ensures total { result ≡ sum_by (λ s. s.exponent) word.now }
    ensures limit { result ≤ 25500 }
{
    let mut total = 0u32;
    for s in word {
        total += u32::from(s.exponent);
    }
    total
}
