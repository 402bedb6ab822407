//! Putting the parts of a word at the end of a list.

ghost use Rattle.std.specs.Prelude.{◌≡◌, ◌++◌, OnOk, neg_ℤ};
ghost use Rattle.pq_base.specs.SignedWord.{inv, copies, IsLetter};
ghost use Rattle.free_words.specs.Letters.{AreLetters};

use std::alloc::AllocError;

/// The inverse of a letter.
pub(crate) fn inverted(k: i32) -> i32
    requires { IsLetter 2147483647 k }
    ensures { result ≡ neg_ℤ k }
{
    -k
}

/// Puts the inverse of a word at the end.
pub fn push_inverse(out: &mut Vec<i32>, word: &[i32]) -> Result<(), AllocError>
    requires { AreLetters word.now }
    ensures { OnOk result (out.new.items ≡ out.old.items ++ inv word.now) }
{
    let mut rest = word;
    while let Some((k, before)) = rest.split_last() {
        out.push(inverted(*k))?;
        rest = before;
    }
    Ok(())
}

/// Puts a word so many times at the end.
pub(crate) fn push_copies(out: &mut Vec<i32>, word: &[i32], times: u32) -> Result<(), AllocError>
    ensures { OnOk result (out.new.items ≡ out.old.items ++ copies word.now times) }
{
    if word.is_empty() {
        return Ok(());
    }
    for _ in 0..times {
        out.extend_from_slice(word)?;
    }
    Ok(())
}
