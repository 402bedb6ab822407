//! Texts that lines of a case put together, and texts that are shown.

ghost use Rattle.std.specs.Prelude.{◌≡◌, [], IfOk, IsFalse};

use anyhow::{Result, bail};
use std::alloc::Global;
use std::fmt::Display;
use std::marker::Model;
use std::str::FromStr;

/// The most bytes of a text that are shown.
const SHOWN: usize = 8_000;

/// A text in the making.
#[derive(Drop)]
pub struct Text {
    bytes: Vec<u8>,
}

impl Model for Text {
    ghost use Rattle.std.specs.Prelude.{ℕ, List};

    ghost Value = { List ℕ };

    ghost view = { λ t. t.bytes.items };
}

impl Text {
    /// The empty text.
    pub fn new(alloc: Global) -> Text
        ensures { result ≡ [] }
    {
        Text {
            bytes: Vec::new(alloc),
        }
    }

    /// The bytes so far.
    pub fn bytes(&self) -> &[u8]
        ensures { result.now ≡ self.now }
    {
        &self.bytes
    }

    /// Adds what a line says, and says whether it is such a line: `> TEXT` adds the text and a newline, `+ TEXT` the text
    /// alone, and `* N TEXT` the text N times. In each text `\n`, `\r`, `\t`, `\s` and `\\` stand for a newline, a return,
    /// a tab, a blank and a backslash. Any other line leaves the text as it was.
    pub fn add(&mut self, verb: &str, rest: &str) -> Result<bool>
        ensures { IfOk result (λ is_added. IsFalse is_added → self.new ≡ self.old) }
    {
        match verb {
            ">" => {
                self.add_times(1, rest)?;
                self.bytes.push(b'\n')?;
            }
            "+" => self.add_times(1, rest)?,
            "*" => match rest.split_once(' ') {
                Some((times, text)) => self.add_times(times.parse::<u32>()?, text)?,
                None => bail!("no text"),
            },
            _ => return Ok(false),
        }
        Ok(true)
    }

    fn add_times(&mut self, times: u32, text: &str) -> Result<()> {
        let text = unescaped(*self.bytes.allocator(), text)?;
        for _ in 0..times {
            self.bytes.extend_from_slice(&text)?;
        }
        Ok(())
    }
}

/// A text with its escapes replaced.
pub fn unescaped(alloc: Global, text: &str) -> Result<Vec<u8>> {
    let mut bytes = Vec::new(alloc);
    let mut is_behind = false;
    for byte in text.as_bytes() {
        if is_behind {
            bytes.push(escaped_byte(*byte)?)?;
            is_behind = false;
        } else if *byte == b'\\' {
            is_behind = true;
        } else {
            bytes.push(*byte)?;
        }
    }
    if is_behind {
        bail!("a backslash at the end");
    }
    Ok(bytes)
}

/// What a byte behind a backslash stands for.
fn escaped_byte(byte: u8) -> Result<u8> {
    match byte {
        b'n' => Ok(b'\n'),
        b'r' => Ok(b'\r'),
        b't' => Ok(b'\t'),
        b's' => Ok(b' '),
        b'\\' => Ok(b'\\'),
        _ => bail!("no such escape"),
    }
}

/// A text in which its first part that stands before `=>` in a line is replaced by what stands behind `=>` there, both with their
/// escapes.
pub fn replaced(alloc: Global, text: &[u8], rest: &str) -> Result<Vec<u8>> {
    let Some((old, new)) = rest.split_once(" =>") else {
        bail!("without =>");
    };
    let old = unescaped(alloc, old)?;
    let new = unescaped(alloc, new.strip_prefix(' ').unwrap_or(new))?;
    let Some(place) = place_of(text, &old) else {
        bail!("no such part");
    };
    let (before, behind) = text.split_at(place.min(text.len()));
    let mut changed = Vec::from_slice(alloc, before)?;
    changed.extend_from_slice(&new)?;
    if let Some(rest) = behind.strip_prefix(old.as_slice()) {
        changed.extend_from_slice(rest)?;
    }
    Ok(changed)
}

/// Where a part of a text begins first.
fn place_of(text: &[u8], part: &[u8]) -> Option<usize> {
    (0..text.len()).find(|place| text[*place..].starts_with(part))
}

/// Writes bytes line by line, each behind four blanks, and says how many there are where they are many.
pub fn show(out: &mut String, bytes: &[u8]) -> Result<()> {
    if bytes.len() > SHOWN {
        let length = bytes.len();
        writeln!(out, "    {length} bytes")?;
        return Ok(());
    }
    let mut at_start = true;
    for byte in bytes {
        if at_start {
            out.push_str("    ")?;
        }
        show_byte(out, *byte)?;
        at_start = *byte == b'\n';
    }
    if !at_start {
        out.push_str(" (no newline)\n")?;
    }
    Ok(())
}

fn show_byte(out: &mut String, byte: u8) -> Result<()> {
    if byte == b'\n' || (b' '..=b'~').contains(&byte) {
        out.push(byte as char)?;
    } else {
        write!(out, "<byte {byte}>")?;
    }
    Ok(())
}

/// Writes numbers with blanks between them, and `none` where there are none.
pub fn show_numbers<T: Display>(out: &mut String, numbers: &[T]) -> Result<()> {
    if numbers.is_empty() {
        out.push_str(" none")?;
    }
    for number in numbers {
        write!(out, " {number}")?;
    }
    Ok(())
}

/// The numbers that a text has between its blanks.
pub fn numbers<T: FromStr + Drop>(alloc: Global, text: &str) -> Result<Vec<T>>
where
    T::Err: Drop,
{
    let mut numbers = Vec::new(alloc);
    for word in text.split_whitespace() {
        match word.parse::<T>() {
            Ok(number) => numbers.push(number)?,
            Err(_) => bail!("no number: {word}"),
        }
    }
    Ok(numbers)
}

/// What stands before and behind a sign.
pub fn halves<'a>(text: &'a str, sign: &str) -> Result<(&'a str, &'a str)> {
    match text.split_once(sign) {
        Some((before, behind)) => Ok((before.trim(), behind.trim())),
        None => bail!("without {sign}"),
    }
}
