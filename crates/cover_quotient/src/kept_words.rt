//! Words in the kept tails, which are numbered there by their places, from 1 on.

ghost use Rattle.std.specs.Prelude.{◌≡◌, ◌≤◌, ◌-◌, ◌++◌, ◌∷◌, [], cond, eqb, map, length, IfOk, OnOk};
ghost use Rattle.pq_base.specs.Limits.{max_rank};
ghost use Rattle.pc_presentation.specs.Syllable.{syllables_of};

use pc_presentation::Syllable;
use pq_base::NoMemory;
use std::alloc::Global;

/// The word that a kept tail becomes: itself.
pub fn unit_word(alloc: Global, kept: &[u16], tail: u16) -> Result<Vec<Syllable>, NoMemory>
    requires limit { length kept.now ≤ max_rank }
    ensures { IfOk result (λ word. word.items ≡ syllables_of 0 (map (λ c. cond (eqb tail c) 1 0) kept.now)) }
{
    let mut word = Vec::new(alloc);
    for k in 0..kept.len() {
        push_power(&mut word, k as u16 + 1, unit_entry(tail, kept[k]))?;
    }
    Ok(word)
}

/// 1 at the tail's own column, and 0 elsewhere.
fn unit_entry(tail: u16, column: u16) -> u8
    ensures { result ≡ cond (eqb tail column) 1 0 }
{
    if tail == column { 1 } else { 0 }
}

/// Puts a generator, counted from 1, to an exponent at the end of a word, unless the exponent is 0.
pub fn push_power(word: &mut Vec<Syllable>, generator: u16, exponent: u8) -> Result<(), NoMemory>
    requires { 1 ≤ generator }
    ensures { OnOk result (word.new.items ≡ word.old.items ++ syllables_of (generator - 1) (exponent ∷ [])) }
{
    if exponent != 0 {
        word.push(Syllable {
            generator,
            exponent,
        })?;
    }
    Ok(())
}
