//! The first lines of an answer's text: prime, class, rank and order.

ghost use Rattle.std.specs.Prelude.{◌≡◌, ◌≤◌, ◌+◌, length, IfOk, IfErr};
ghost use Rattle.pq_base.specs.Limits.{max_rank};
ghost use Rattle.pq_base.specs.Prime.{prime_value};
ghost use Rattle.answer_text.specs.AnswerPlaces.Place.{for_prime, for_class};
ghost use Rattle.answer_text.specs.ReadSoFar.{IsBadAt, IsHead, IsSize};

use crate::fault::AnswerFault;
use crate::line_reading::{class_line, is_order_line, prime_line, rank_line};
use crate::pieces::next_line;
use pq_base::Prime;

/// What the first lines say.
#[derive(Clone, Copy)]
pub(crate) struct Head {
    pub(crate) prime: Prime,
    pub(crate) rank: u16,
}

/// Prime, class, rank and order, and what follows them.
pub(crate) fn read_head(bytes: &[u8]) -> Result<(Head, &[u8]), AnswerFault>
    ensures ok { IfOk result (λ x. IsHead (prime_value x.0.prime) x.0.rank bytes.now x.1.now) }
    ensures shorter { IfOk result (λ x. length x.1.now + 4 ≤ length bytes.now) }
    ensures limit { IfOk result (λ x. x.0.rank ≤ max_rank) }
    ensures err { IfErr result (IsBadAt for_prime bytes.now 1) }
{
    let Some((line, rest)) = next_line(bytes) else {
        return Err(AnswerFault::Line(1));
    };
    let Some(prime) = prime_line(line) else {
        return Err(AnswerFault::Line(1));
    };
    match read_size(prime, rest) {
        Ok((rank, rest)) => Ok((Head { prime, rank }, rest)),
        Err(fault) => Err(fault),
    }
}

/// Class, rank and order, and what follows them.
fn read_size(prime: Prime, text: &[u8]) -> Result<(u16, &[u8]), AnswerFault>
    ensures ok { IfOk result (λ x. IsSize (prime_value prime) x.0 text.now x.1.now) }
    ensures shorter { IfOk result (λ x. length x.1.now + 3 ≤ length text.now) }
    ensures limit { IfOk result (λ x. x.0 ≤ max_rank) }
    ensures err { IfErr result (IsBadAt (for_class (prime_value prime)) text.now 2) }
{
    let Some((line, rest)) = next_line(text) else {
        return Err(AnswerFault::Line(2));
    };
    let Some(_class) = class_line(line) else {
        return Err(AnswerFault::Line(2));
    };
    let Some((line, rest)) = next_line(rest) else {
        return Err(AnswerFault::Line(3));
    };
    let Some(rank) = rank_line(line) else {
        return Err(AnswerFault::Line(3));
    };
    let Some((line, rest)) = next_line(rest) else {
        return Err(AnswerFault::Line(4));
    };
    if !is_order_line(line, prime.value(), rank) {
        return Err(AnswerFault::Line(4));
    }
    Ok((rank, rest))
}
