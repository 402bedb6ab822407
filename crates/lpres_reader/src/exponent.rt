//! Written exponents.

ghost use Rattle.std.specs.Prelude.{◌≡◌, ◌≤◌, ◌+◌, ◌*◌};
ghost use Rattle.std.specs.Char.{digit_value};
ghost use Rattle.std.specs.Str.Parse.{digits_value};
ghost use Rattle.lpres_reader.specs.Values.{told};

/// The greatest size that is told of an exponent.
const MOST: u64 = 999_999_999_999_999_999;

/// The number that digits are, or the greatest that is told where it is above that.
pub(crate) fn size_of(digits: &[u8]) -> u64
    ensures { result ≡ told (digits_value 10 digits.now) }
{
    let mut size: u64 = 0;
    for digit in digits {
        size = one_digit_more(size, *digit);
    }
    size
}

/// The size with one digit more behind it.
fn one_digit_more(size: u64, digit: u8) -> u64
    requires { size ≤ 999999999999999999 }
    ensures { result ≡ told (size * 10 + digit_value digit) }
{
    let value = char::from(digit).to_digit(36).unwrap_or(36);
    (size * 10 + u64::from(value)).min(MOST)
}
