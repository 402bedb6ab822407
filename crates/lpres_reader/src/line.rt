//! The lines of a text, and the blanks in a line.

ghost use Rattle.std.specs.Prelude.{◌≡◌, ◌<◌, ◌≤◌, ◌-◌, ◌^◌, ◌==◌, [], ◌∷◌, length, drop, count_by, IfSome, MatchOption};
ghost use Rattle.std.specs.List.{prefix_len, position};
ghost use Rattle.lpres_reader.specs.Lines.{is_blank, is_skipped, lines_of};

/// Whether a byte is a space, a tab or a carriage return.
fn is_blank(byte: u8) -> bool
    ensures { result ≡ is_blank byte }
{
    matches!(byte, b' ' | b'\t' | b'\r')
}

#[tactic(auto, using(crate::proofs::texts::LineLemmas::prefix_le))]
fn blanks_at_front(line: &[u8]) -> usize
    ensures length { result ≡ prefix_len is_blank line.now }
    ensures within { result ≤ length line.now }
{
    line.iter().take_while(|byte| is_blank(**byte)).count()
}

/// A line without the blanks at its front.
pub(crate) fn after_blanks(line: &[u8]) -> &[u8]
    ensures { result.now ≡ drop (prefix_len is_blank line.now) line.now }
{
    let (_, rest) = line.split_at(blanks_at_front(line));
    rest
}

/// Whether a line is blank or a comment.
pub(crate) fn is_skipped(line: &[u8]) -> bool
    ensures { result ≡ is_skipped line.now }
{
    match after_blanks(line) {
        [] => true,
        [byte, ..] => *byte == b'#',
    }
}

fn first_newline(text: &[u8]) -> Option<usize>
    ensures { result ≡ position (λ b. b == 10) text.now }
{
    text.iter().position(|byte| *byte == b'\n')
}

/// The first line of a text, and what is behind its newline, where it has one.
pub(crate) fn cut_line(text: &[u8]) -> (&[u8], Option<&[u8]>)
    ensures lines { MatchOption result.1
        (lines_of text.now ≡ result.0.now ∷ [])
        (λ after. lines_of text.now ≡ result.0.now ∷ lines_of after.now) }
    ensures shorter { IfSome result.1 (λ after. length after.now < length text.now) }
{
    match first_newline(text) {
        None => (text, None),
        Some(at) => (&text[..at], Some(&text[at + 1..])),
    }
}

fn newlines(text: &[u8]) -> usize
    ensures count { result ≡ count_by (λ b. b == 10) text.now }
    ensures within { result ≤ length text.now }
{
    text.iter().filter(|byte| **byte == b'\n').count()
}

/// How many lines a text has.
pub(crate) fn line_count(text: &[u8]) -> u32
    requires { length text.now < 2 ^ 32 - 1 }
    ensures { result ≡ length (lines_of text.now) }
{
    newlines(text) as u32 + 1
}
