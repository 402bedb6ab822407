//! Paths of endomorphisms, each read where it is written exactly so.

ghost use Rattle.std.specs.Prelude.{◌≡◌, ◌++◌, ◌∷◌, ℕ, List, IfOk, IfSome, IfNone, codes};
ghost use Rattle.pq_base.specs.Table.{AllBelow};
ghost use Rattle.cert_text.specs.CertificateText.{numbers_text, along_text};

use crate::numbers_reading::numbers;
use answer_text::pieces::behind;
use pq_base::{NoMemory, Path};
use std::alloc::Global;

/// The path of some numbers, where none is above 255.
fn path_of(alloc: Global, numbers: &[u16]) -> Result<Option<Path>, NoMemory>
    ensures some { IfOk result (λ r. IfSome r (λ path. path ≡ numbers.now)) }
    ensures small { IfOk result (λ r. IfSome r (λ path. AllBelow 256 path)) }
    ensures none { IfOk result (λ r. IfNone r (¬ AllBelow 256 numbers.now)) }
{
    let mut path: Vec<u8> = Vec::new(alloc);
    for number in numbers {
        if 255 < *number {
            return Ok(None);
        }
        path.push(*number as u8)?;
    }
    Ok(Some(Path::of(alloc, &path)?))
}

/// The path of the numbers of a text, of which there are some.
fn path_behind(alloc: Global, text: &[u8]) -> Result<Option<Path>, NoMemory>
    ensures some { IfOk result (λ r. IfSome r (λ path. codes " along" ++ text.now ≡ along_text path)) }
    ensures small { IfOk result (λ r. IfSome r (λ path. AllBelow 256 path)) }
    ensures none { IfOk result (λ r. IfNone r ((e : ℕ) (s : List ℕ) → AllBelow 256 (e ∷ s) → ¬ (text.now ≡ numbers_text (e ∷ s)))) }
{
    let Some(found) = numbers(alloc, text)? else {
        return Ok(None);
    };
    if found.is_empty() {
        return Ok(None);
    }
    let path = path_of(alloc, &found)?;
    match path {
        Some(path) => Ok(Some(path)),
        None => Ok(None),
    }
}

/// The path that a text says: the empty one where the text is empty, else that behind the keyword `along`.
pub(crate) fn along(alloc: Global, text: &[u8]) -> Result<Option<Path>, NoMemory>
    ensures some { IfOk result (λ r. IfSome r (λ path. text.now ≡ along_text path)) }
    ensures small { IfOk result (λ r. IfSome r (λ path. AllBelow 256 path)) }
    ensures none { IfOk result (λ r. IfNone r ((s : List ℕ) → AllBelow 256 s → ¬ (text.now ≡ along_text s))) }
{
    if text.is_empty() {
        return Ok(Some(Path::of(alloc, &[])?));
    }
    match behind(text, b" along") {
        Some(rest) => path_behind(alloc, rest),
        None => Ok(None),
    }
}
