//! Numbers and paths of endomorphisms, as they are written.

ghost use Rattle.std.specs.Prelude.{◌≡◌, ◌++◌, OnOk, codes};
ghost use Rattle.cert_text.specs.CertificateText.{numbers_text, along_text};

use pq_base::{NoMemory, push_number};

/// Writes the endomorphisms of a path, where it has any.
pub(crate) fn push_along(out: &mut Vec<u8>, path: &[u8]) -> Result<(), NoMemory>
    ensures { OnOk result (out.new.items ≡ out.old.items ++ along_text path.now) }
{
    if path.is_empty() {
        return Ok(());
    }
    out.extend_from_slice(b" along")?;
    push_path(out, path)
}

/// Writes numbers, each behind a blank.
fn push_path(out: &mut Vec<u8>, path: &[u8]) -> Result<(), NoMemory>
    ensures { OnOk result (out.new.items ≡ out.old.items ++ numbers_text path.now) }
{
    for number in path {
        out.push(b' ')?;
        push_number(out, u64::from(*number))?;
    }
    Ok(())
}
