//! How deep brackets are in a line.

ghost use Rattle.std.specs.Prelude.{◌≡◌, true, false};
ghost use Rattle.lpres_reader.specs.Lines.{is_opening, is_closing, IsShallow};
ghost use Rattle.lpres_reader.specs.Verdicts.{one_if};

use pq_base::limits::BRACKETS;

/// How many brackets a byte opens.
fn opens(byte: u8) -> usize
    ensures { result ≡ one_if (is_opening byte) }
{
    if byte == b'(' || byte == b'[' { 1 } else { 0 }
}

/// How many brackets a byte closes.
fn closes(byte: u8) -> usize
    ensures { result ≡ one_if (is_closing byte) }
{
    if byte == b')' || byte == b']' { 1 } else { 0 }
}

/// Whether at no place of a line more than 64 brackets are open. All bytes count, and there may be more closing brackets
/// than opening ones.
pub(crate) fn is_shallow(line: &[u8]) -> bool
    ensures shallow { result ≡ true → IsShallow line.now }
    ensures deep { result ≡ false → ¬ IsShallow line.now }
{
    let mut opened: usize = 0;
    let mut closed: usize = 0;
    for byte in line {
        opened += opens(*byte);
        closed += closes(*byte);
        if opened > closed + BRACKETS {
            return false;
        }
    }
    true
}
