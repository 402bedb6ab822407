//! Numbers at the front of a text, each read where it is written exactly so.

ghost use Rattle.std.specs.Prelude.{◌≡◌, ◌<◌, ◌≤◌, ◌+◌, ◌-◌, ◌*◌, ◌++◌, ℕ, List, length, IfSome, IfNone, decimal};
ghost use Rattle.std.specs.List.{prefix_len};
ghost use Rattle.answer_text.specs.Numbers.{is_digit};
ghost use Rattle.cert_text.specs.NumberFronts.{is_no_digit, AllFail, StartsWell, is_padded};

use answer_text::pieces::is_digit;

/// How many digits stand at the front of a text.
fn digits_at_front(text: &[u8]) -> usize
    ensures length { result ≡ prefix_len is_digit text.now }
    ensures within { result ≤ length text.now }
{
    text.iter().take_while(|byte| is_digit(**byte)).count()
}

/// Whether digits aren't those of a number: there are none, or a 0 stands in front of others.
fn is_padded(digits: &[u8]) -> bool
    ensures { result ≡ is_padded digits.now }
{
    match digits {
        [] => true,
        [first, rest @ ..] => *first == b'0' && !rest.is_empty(),
    }
}

/// The number whose digits are those of a number and one digit more, given as its byte.
fn with_digit(value: u32, digit: u8) -> u32
    requires { value ≤ 65535 }
    ensures { result ≡ 10 * value + (digit - 48) }
{
    10 * value + u32::from(digit.saturating_sub(b'0'))
}

/// The number below 65536 that is written in these digits.
fn number(digits: &[u8]) -> Option<u16>
    requires { AllFail is_no_digit digits.now }
    ensures some { IfSome result (λ n. digits.now ≡ decimal n) }
    ensures none { IfNone result ((n : ℕ) → n < 65536 → ¬ (digits.now ≡ decimal n)) }
{
    if is_padded(digits) {
        return None;
    }
    let mut value: u32 = 0;
    for digit in digits {
        value = with_digit(value, *digit);
        if 65535 < value {
            return None;
        }
    }
    Some(value as u16)
}

/// The number below 65536 at the front of a text, and what follows it, which no digit begins.
pub(crate) fn front_number(text: &[u8]) -> Option<(u16, &[u8])>
    ensures some { IfSome result (λ x. text.now ≡ decimal x.0 ++ x.1.now) }
    ensures small { IfSome result (λ x. x.0 < 65536) }
    ensures stops { IfSome result (λ x. StartsWell is_no_digit x.1.now) }
    ensures none { IfNone result ((n : ℕ) (rest : List ℕ) → n < 65536 → StartsWell is_no_digit rest → ¬ (text.now ≡ decimal n ++ rest)) }
{
    let (digits, rest) = text.split_at(digits_at_front(text));
    match number(digits) {
        Some(n) => Some((n, rest)),
        None => None,
    }
}
