//! The outputs of `quotient P C`, `quotient P C json` and `certify P C`: from the bytes of a source to the bytes of the answer in the form
//! that is asked for, as text, as JSON or in a certificate.

ghost use Rattle.std.specs.Prelude.{◌≡◌, ◌≤◌, ◌+◌, [], Some, IfOk, IfErr, IfSome};
ghost use Rattle.pq_base.specs.Prime.{prime_value};
ghost use Rattle.answer_text.specs.AnswerText.{answer_text};
ghost use Rattle.answer_text.specs.AnswerData.{answer_json};
ghost use Rattle.answer_text.specs.OneText.{IsWritable};
ghost use Rattle.tower.specs.Answers.{IsQuotient};
ghost use Rattle.tower.specs.TwoRuns.{HasSmallPart};
ghost use Rattle.pq_run.specs.declared.input.Input.TheVariants.{Presentation};
ghost use Rattle.pq_run.specs.Input.{byte_limit, IsTaken, IsWithin};
ghost use Rattle.pq_run.specs.declared.command.Command.TheVariants.{Quotient};
ghost use Rattle.pq_run.specs.Command.{IsClass};
ghost use Rattle.pq_run.specs.Texts.{HasSmallRanks, OfEachText};
ghost use Rattle.pq_run.specs.Output.{WritesAnswer, OutputOf};
ghost use Rattle.pq_run.specs.Streams.{reading_of};
ghost use Rattle.pq_run.specs.Cause.{IsPresentationCause, IsQuotientCause};

use crate::certify_output::output_as_certificate;
use crate::command::Form;
use crate::input::read_presentation;
use crate::refusal::Refusal;
use answer_text::{json, text};
use derivation_log::NoLog;
use lpres_reader::LPres;
use pc_presentation::Answer;
use pq_base::Prime;
use pq_io::Source;
use stack_collector::Stack;
use std::alloc::Global;
use tower::largest;

/// Reads a presentation to its end, and gives the bytes of its answer.
pub(crate) fn output_of_quotient<S: Source>(
    alloc: Global,
    prime: Prime,
    class: u8,
    form: Form,
    source: &mut S,
) -> Result<Vec<u8>, Refusal>
    requires { IsClass class }
    ensures read { IfOk result (λ bytes. IfSome (S.left source.old) (λ text. S.left source.new ≡ Some [])) }
    ensures within { IfOk result (λ bytes. IfSome (S.left source.old) (IsWithin Presentation)) }
    ensures small { IfOk result (λ bytes. IfSome (S.left source.old) (HasSmallRanks (prime_value prime) class)) }
    ensures output { IfOk result (λ bytes. IfSome (S.left source.old)
        (λ text. OutputOf (Quotient prime class form) text bytes.items)) }
    ensures err { IfErr result (IsQuotientCause (prime_value prime) class (reading_of S.left S.faults source.old source.new)) }
    ensures count { S.faults source.old ≤ S.faults source.new }
    ensures left { IsTaken (byte_limit Presentation + 1) (S.left source.old) (S.left source.new) }
{
    let pres = read_presentation(alloc, source)?;
    output_of(alloc, prime, class, form, &pres)
}

/// The bytes of the answer of a presentation.
fn output_of(
    alloc: Global,
    prime: Prime,
    class: u8,
    form: Form,
    pres: &LPres,
) -> Result<Vec<u8>, Refusal>
    requires { IsClass class }
    ensures small { IfOk result (λ bytes. OfEachText pres.now (HasSmallRanks (prime_value prime) class)) }
    ensures output { IfOk result (λ bytes. OfEachText pres.now
        (λ text. OutputOf (Quotient prime class form) text bytes.items)) }
    ensures err { IfErr result (IsPresentationCause (prime_value prime) class pres.now) }
{
    match form {
        Form::Text => output_as_text(alloc, prime, class, pres),
        Form::Json => output_as_json(alloc, prime, class, pres),
        Form::Certificate => output_as_certificate(alloc, prime, class, pres),
    }
}

/// The answer of a presentation as text.
fn output_as_text(alloc: Global, prime: Prime, class: u8, pres: &LPres) -> Result<Vec<u8>, Refusal>
    requires { IsClass class }
    ensures small { IfOk result (λ bytes. OfEachText pres.now (HasSmallRanks (prime_value prime) class)) }
    ensures output { IfOk result (λ bytes. OfEachText pres.now
        (λ text. WritesAnswer (prime_value prime) class answer_text text bytes.items)) }
    ensures err { IfErr result (IsPresentationCause (prime_value prime) class pres.now) }
{
    let answer = answer_of(alloc, prime, class, pres)?;
    Ok(text(alloc, &answer)?)
}

/// The answer of a presentation as JSON.
fn output_as_json(alloc: Global, prime: Prime, class: u8, pres: &LPres) -> Result<Vec<u8>, Refusal>
    requires { IsClass class }
    ensures small { IfOk result (λ bytes. OfEachText pres.now (HasSmallRanks (prime_value prime) class)) }
    ensures output { IfOk result (λ bytes. OfEachText pres.now
        (λ text. WritesAnswer (prime_value prime) class answer_json text bytes.items)) }
    ensures err { IfErr result (IsPresentationCause (prime_value prime) class pres.now) }
{
    let answer = answer_of(alloc, prime, class, pres)?;
    Ok(json(alloc, &answer)?)
}

/// The answer of a presentation. That its names and its rank are such as a text has comes from the calls whose results aren't used.
fn answer_of(alloc: Global, prime: Prime, class: u8, pres: &LPres) -> Result<Answer, Refusal>
    requires { IsClass class }
    ensures quotient { IfOk result (λ answer. IsQuotient pres.now (prime_value prime) class answer) }
    ensures part { IfOk result (λ answer. HasSmallPart pres.now (prime_value prime) class) }
    ensures writable { IfOk result IsWritable }
    ensures err { IfErr result (IsPresentationCause (prime_value prime) class pres.now) }
{
    let _names = pres.names();
    let answer = largest::<Stack, NoLog>(alloc, pres, prime, class, &mut NoLog)?;
    let _rank = answer.pcp().rank();
    Ok(answer)
}
