//! Checks that what a case says is what a call requires.

ghost use Rattle.std.specs.Prelude.{◌≡◌, ◌≤◌, IsTrue, length};
ghost use Rattle.pq_base.specs.SignedWord.{IsLetter, HasLetters};
ghost use Rattle.pq_base.specs.LPresentation.{AreEndoNumbers};
ghost use Rattle.free_words.specs.Letters.{AreLetters};

/// Whether a number is a letter of any word.
pub fn is_letter(k: i32) -> bool
    ensures { IsTrue result → IsLetter 2147483647 k }
{
    is_letter_of(2_147_483_647, k)
}

/// Whether these are letters of any word.
pub fn are_letters(letters: &[i32]) -> bool
    ensures { IsTrue result → AreLetters letters.now }
{
    is_over(2_147_483_647, letters)
}

/// Whether a word is over so many generators.
pub fn is_over(generators: usize, word: &[i32]) -> bool
    ensures { IsTrue result → HasLetters generators word.now }
{
    for k in word {
        if !is_letter_of(generators, *k) {
            return false;
        }
    }
    true
}

/// Whether a letter is one of so many generators.
fn is_letter_of(generators: usize, k: i32) -> bool
    ensures { IsTrue result → IsLetter generators k }
{
    k != 0 && k.unsigned_abs() as usize <= generators
}

/// Whether these are numbers of so many endomorphisms.
pub fn are_endo_numbers(endos: usize, numbers: &[u8]) -> bool
    ensures { IsTrue result → AreEndoNumbers endos numbers.now }
{
    match numbers.split_first() {
        None => true,
        Some((first, rest)) => {
            1 <= *first && *first as usize <= endos && are_endo_numbers(endos, rest)
        }
    }
}
