//! The top call: from the words of a command and the bytes of a source to the bytes that a sink takes.

ghost use Rattle.std.specs.Prelude.{◌≡◌, ◌≢◌, ◌+◌, ◌⊎◌, ◌↔◌, ◌≤◌, ℕ, List, IfSome, IsNone};
ghost use Rattle.pq_base.specs.Limits.{max_sample};
ghost use Rattle.pq_io.specs.Faults.{Rose};
ghost use Rattle.pq_io.specs.Writing.{Gains, GainsProperPrefix};
ghost use Rattle.pq_run.specs.declared.input.Input.TheVariants.{Presentation, Certificate};
ghost use Rattle.pq_run.specs.Command.{IsClass, AreCommandWords, CommandWords, Asks};
ghost use Rattle.pq_run.specs.Input.{byte_limit, IsTaken, IsTakenBy};
ghost use Rattle.pq_run.specs.declared.command.Command.TheVariants.{Quotient, Check, Sample};
ghost use Rattle.pq_run.specs.Kinds.{IsReading, IsTooLong, IsBadText, IsTooLarge, IsCertRefused, IsAnswered, IsLargeSample, IsSmallSample};
ghost use Rattle.pq_run.specs.Streams.{Reading, reading_of, writing_of};
ghost use Rattle.pq_run.specs.Ends.{IsDone, IsOnlyOutput, IsCut, IsRefused, IsDecided, Ends};
ghost use Rattle.pq_run.specs.Headline.{Headline};

use crate::check_output::output_of_check;
use crate::command::{Command, Form, parse_words};
use crate::quotient_output::output_of_quotient;
use crate::refusal::Refusal;
use crate::refusing::refuse;
use crate::sample_output::output_of_sample;
use crate::words::Words;
use pq_base::{Prime, Status};
use pq_io::{Sink, Source, write_whole};
use std::alloc::Global;

/// Carries out the command that the words spell: reads its input to the end and writes its output, or a line that says why
/// the command is refused. The line is written as far as the sink takes it.
/// The commands are `quotient P C`, `quotient P C json`, `certify P C`, `check` and `sample N`, which reads nothing.
pub fn run<S: Source, K: Sink>(alloc: Global, words: &Words, source: &mut S, sink: &mut K) -> Status
    // With status 0, `quotient P C` has read one presentation to its end, and has written its largest quotient: line by line.
    ensures headline { result ≡ Status.Done
        → Headline words.now (reading_of S.left S.faults source.old source.new) (writing_of K.taken K.faults sink.old sink.new) }

    // With status 0 each command has read its input to its end, and has written one output, and nothing else.
    ensures done { result ≡ Status.Done
        → IsDone words.now (reading_of S.left S.faults source.old source.new) (writing_of K.taken K.faults sink.old sink.new) }

    // That output is the only one, but for `certify P C`: the words and what was read determine it.
    ensures only { result ≡ Status.Done
        → IsOnlyOutput words.now (reading_of S.left S.faults source.old source.new) (writing_of K.taken K.faults sink.old sink.new) }

    // Only a sink that failed ends an output early.
    ensures write_fault { result ≡ Status.WriteFault
        → IsCut words.now (reading_of S.left S.faults source.old source.new) (writing_of K.taken K.faults sink.old sink.new) }

    // Every other status is a refusal with its cause, and its line was written.
    ensures refused { result ≢ Status.Done → result ≢ Status.WriteFault
        → IsRefused words.now (reading_of S.left S.faults source.old source.new) (writing_of K.taken K.faults sink.old sink.new) result }

    // What the words alone decide needs no memory, and leaves the source as it was.
    ensures bad_words { (result ≡ Status.BadWords) ↔ (¬ AreCommandWords words.now) }
    ensures untouched { ¬ Asks IsReading words.now → S.left source.new ≡ S.left source.old }
    ensures uncounted { ¬ Asks IsReading words.now → S.faults source.new ≡ S.faults source.old }

    // What the input decides comes, unless a read fails or memory is wanting before.
    ensures too_long { IfSome (S.left source.old) (λ bytes. Asks (IsTooLong bytes) words.now → IsDecided Status.InputTooLong result) }
    ensures bad_text { IfSome (S.left source.old) (λ bytes. Asks (IsBadText bytes) words.now → IsDecided Status.BadText result) }
    ensures too_large { IfSome (S.left source.old) (λ bytes. Asks (IsTooLarge bytes) words.now → IsDecided Status.TooLarge result) }
    ensures cert_refused { IfSome (S.left source.old)
        (λ bytes. Asks (IsCertRefused bytes) words.now → IsDecided Status.CertRefused result) }

    // Where nothing fails and the input is one that is answered, as each presentation is whose largest quotients have ranks within the
    // limit, those of its iterated part too where that is computed first, and each valid certificate, the command is done, unless memory
    // is wanting.
    ensures complete { IfSome (S.left source.old) (λ bytes. Asks (IsAnswered bytes) words.now
        → ¬ Rose (S.faults source.old) (S.faults source.new) → ¬ Rose (K.faults sink.old) (K.faults sink.new)
        → (result ≡ Status.Done) ⊎ (result ≡ Status.NoMemory)) }

    // The same of a sample, for which nothing is asked of the source: the number decides, unless memory is wanting.
    ensures sample_too_large { Asks IsLargeSample words.now → (result ≡ Status.TooLarge) ⊎ (result ≡ Status.NoMemory) }
    ensures sample_complete { Asks IsSmallSample words.now → ¬ Rose (K.faults sink.old) (K.faults sink.new)
        → (result ≡ Status.Done) ⊎ (result ≡ Status.NoMemory) }

    // Counts of faults never fall, no more is taken than may be, and a sink that has stopped telling never tells again.
    ensures read_count { S.faults source.old ≤ S.faults source.new }
    ensures write_count { K.faults sink.old ≤ K.faults sink.new }
    ensures left { IsTakenBy words.now (S.left source.old) (S.left source.new) }
    ensures silent { IsNone (K.taken sink.old) → IsNone (K.taken sink.new) }
{
    carry_out(alloc, words, source, sink)
}

/// Carries out the command. Its clause `ends` says all that may come of it; those of `run` follow from that.
fn carry_out<S: Source, K: Sink>(
    alloc: Global,
    words: &Words,
    source: &mut S,
    sink: &mut K,
) -> Status
    ensures ends { Ends words.now
        (reading_of S.left S.faults source.old source.new) (writing_of K.taken K.faults sink.old sink.new) result }
    ensures untouched { ¬ Asks IsReading words.now → S.left source.new ≡ S.left source.old }
    ensures uncounted { ¬ Asks IsReading words.now → S.faults source.new ≡ S.faults source.old }
    ensures read_count { S.faults source.old ≤ S.faults source.new }
    ensures write_count { K.faults sink.old ≤ K.faults sink.new }
    ensures left { IsTakenBy words.now (S.left source.old) (S.left source.new) }
    ensures silent { IsNone (K.taken sink.old) → IsNone (K.taken sink.new) }
{
    match parse_words(words) {
        None => refuse(alloc, sink, Refusal::Words),
        Some(Command::Quotient(prime, class, form)) => {
            quotient(alloc, prime, class, form, source, sink)
        }
        Some(Command::Check) => check(alloc, source, sink),
        Some(Command::Sample(n)) => summarize(alloc, n, sink),
    }
}

/// Reads a presentation and writes its answer in the form that is asked for.
fn quotient<S: Source, K: Sink>(
    alloc: Global,
    prime: Prime,
    class: u8,
    form: Form,
    source: &mut S,
    sink: &mut K,
) -> Status
    requires { IsClass class }
    ensures ends { (words : List (List ℕ)) → CommandWords words (Quotient prime class form)
        → Ends words (reading_of S.left S.faults source.old source.new) (writing_of K.taken K.faults sink.old sink.new) result }
    ensures read_count { S.faults source.old ≤ S.faults source.new }
    ensures write_count { K.faults sink.old ≤ K.faults sink.new }
    ensures left { IsTaken (byte_limit Presentation + 1) (S.left source.old) (S.left source.new) }
    ensures silent { IsNone (K.taken sink.old) → IsNone (K.taken sink.new) }
{
    match output_of_quotient(alloc, prime, class, form, source) {
        Ok(bytes) => finish(sink, &bytes),
        Err(refusal) => refuse(alloc, sink, refusal),
    }
}

/// Reads a certificate and writes its answer where it is valid.
fn check<S: Source, K: Sink>(alloc: Global, source: &mut S, sink: &mut K) -> Status
    ensures ends { (words : List (List ℕ)) → CommandWords words Check
        → Ends words (reading_of S.left S.faults source.old source.new) (writing_of K.taken K.faults sink.old sink.new) result }
    ensures read_count { S.faults source.old ≤ S.faults source.new }
    ensures write_count { K.faults sink.old ≤ K.faults sink.new }
    ensures left { IsTaken (byte_limit Certificate + 1) (S.left source.old) (S.left source.new) }
    ensures silent { IsNone (K.taken sink.old) → IsNone (K.taken sink.new) }
{
    match output_of_check(alloc, source) {
        Ok(bytes) => finish(sink, &bytes),
        Err(refusal) => refuse(alloc, sink, refusal),
    }
}

/// Writes the summary of a sample's answer.
fn summarize<K: Sink>(alloc: Global, n: u32, sink: &mut K) -> Status
    requires { n ≤ max_sample }
    ensures ends { (words : List (List ℕ)) (r : Reading) → CommandWords words (Sample n) → r.rest ≡ r.left
        → Ends words r (writing_of K.taken K.faults sink.old sink.new) result }
    ensures count { K.faults sink.old ≤ K.faults sink.new }
    ensures silent { IsNone (K.taken sink.old) → IsNone (K.taken sink.new) }
{
    match output_of_sample(alloc, n) {
        Ok(bytes) => finish(sink, &bytes),
        Err(refusal) => refuse(alloc, sink, refusal),
    }
}

/// Writes a result.
fn finish<K: Sink>(sink: &mut K, text: &[u8]) -> Status
    ensures ends { ((result ≡ Status.Done) × Gains (K.taken sink.old) (K.taken sink.new) text.now)
        ⊎ ((result ≡ Status.WriteFault) × Rose (K.faults sink.old) (K.faults sink.new)
        × GainsProperPrefix (K.taken sink.old) (K.taken sink.new) text.now) }
    ensures count { K.faults sink.old ≤ K.faults sink.new }
    ensures silent { IsNone (K.taken sink.old) → IsNone (K.taken sink.new) }
{
    match write_whole(sink, text) {
        Ok(()) => Status::Done,
        Err(_) => Status::WriteFault,
    }
}
