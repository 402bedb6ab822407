//! The commands, and the words that spell them.

ghost use Rattle.std.specs.Prelude.{◌≡◌, ◌∷◌, [], ℕ, IfSome, IfNone, decimal};
ghost use Rattle.pq_base.specs.Prime.{prime_value};
ghost use Rattle.pq_run.specs.Command.{IsClass, CommandWords, AreCommandWords};
ghost use Rattle.pq_run.specs.Input.{input_of};

use crate::input::Input;
use crate::number::canonical_number;
use crate::words::Words;
use pq_base::Prime;
use pq_base::limits::{CLASS, SAMPLE};

/// The form in which the answer of a presentation is given.
#[derive(Clone, Copy, Debug, PartialEq, Eq)]
pub enum Form {
    /// Lines of text.
    Text,
    /// A JSON value on one line.
    Json,
    /// Lines of text, in a certificate that says how it is made.
    Certificate,
}

/// What the program is asked for. Classes are from 1 to 60, sample numbers from 0 to 999,999.
#[derive(Clone, Copy, Debug, PartialEq, Eq)]
pub enum Command {
    /// The answer of a presentation, in a form.
    Quotient(Prime, u8, Form),
    /// The answer of a valid certificate.
    Check,
    /// The summary of a numbered sample.
    Sample(u32),
}

impl Command {
    /// What the command reads, where it reads anything.
    pub fn input(self) -> Option<Input>
        ensures { result ≡ input_of self }
    {
        match self {
            Command::Quotient(..) => Some(Input::Presentation),
            Command::Check => Some(Input::Certificate),
            Command::Sample(_) => None,
        }
    }
}

/// The command that the words spell, or `None` exactly where they spell none. Takes no memory.
pub fn parse_words(words: &Words) -> Option<Command>
    ensures some { IfSome result (λ c. CommandWords words.now c) }
    ensures none { IfNone result (¬ AreCommandWords words.now) }
{
    match words.len() {
        1 => of_one(words.at(0)),
        2 => of_two(words.at(0), words.at(1)),
        3 => of_three(words.at(0), words.at(1), words.at(2)),
        4 => of_four(words.at(0), words.at(1), words.at(2), words.at(3)),
        _ => None,
    }
}

/// The command that is this one word, if it is one.
fn of_one(verb: &str) -> Option<Command>
    ensures some { IfSome result (λ c. CommandWords (verb.now ∷ []) c) }
    ensures none { IfNone result (¬ AreCommandWords (verb.now ∷ [])) }
{
    if verb == "check" {
        Some(Command::Check)
    } else {
        None
    }
}

/// The command that these two words spell, if they spell one.
fn of_two(verb: &str, number: &str) -> Option<Command>
    ensures some { IfSome result (λ c. CommandWords (verb.now ∷ number.now ∷ []) c) }
    ensures none { IfNone result (¬ AreCommandWords (verb.now ∷ number.now ∷ [])) }
{
    if verb != "sample" {
        return None;
    }
    match canonical_number(number) {
        Some(n) if n <= SAMPLE => Some(Command::Sample(n)),
        _ => None,
    }
}

/// The command that these three words spell, if they spell one.
fn of_three(verb: &str, prime: &str, class: &str) -> Option<Command>
    ensures some { IfSome result (λ c. CommandWords (verb.now ∷ prime.now ∷ class.now ∷ []) c) }
    ensures none { IfNone result (¬ AreCommandWords (verb.now ∷ prime.now ∷ class.now ∷ [])) }
{
    let prime = prime_of(prime)?;
    let class = class_of(class)?;
    if verb == "quotient" {
        Some(Command::Quotient(prime, class, Form::Text))
    } else if verb == "certify" {
        Some(Command::Quotient(prime, class, Form::Certificate))
    } else {
        None
    }
}

/// The command that these four words spell, if they spell one.
fn of_four(verb: &str, prime: &str, class: &str, form: &str) -> Option<Command>
    ensures some { IfSome result (λ c. CommandWords (verb.now ∷ prime.now ∷ class.now ∷ form.now ∷ []) c) }
    ensures none { IfNone result (¬ AreCommandWords (verb.now ∷ prime.now ∷ class.now ∷ form.now ∷ [])) }
{
    let prime = prime_of(prime)?;
    let class = class_of(class)?;
    if verb == "quotient" && form == "json" {
        Some(Command::Quotient(prime, class, Form::Json))
    } else {
        None
    }
}

/// The prime, one of those that are offered, whose digits a text is.
fn prime_of(text: &str) -> Option<Prime>
    ensures some { IfSome result (λ p. text.now ≡ decimal (prime_value p)) }
    ensures none { IfNone result ((p : Prime) → text.now ≡ decimal (prime_value p) → ⊥) }
{
    match canonical_number(text) {
        Some(n) if n < 8 => Prime::of(n as u8),
        _ => None,
    }
}

/// The class from 1 to 60 whose digits a text is.
fn class_of(text: &str) -> Option<u8>
    ensures some { IfSome result (λ c. text.now ≡ decimal c) }
    ensures range { IfSome result (λ c. IsClass c) }
    ensures none { IfNone result ((c : ℕ) → IsClass c → text.now ≡ decimal c → ⊥) }
{
    match canonical_number(text) {
        Some(n) if 1 <= n && n <= u32::from(CLASS) => Some(n as u8),
        _ => None,
    }
}
