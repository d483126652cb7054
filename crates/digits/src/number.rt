//! Decimal numbers.
ghost use Rattle.std.specs.Prelude.{◌≡◌, ◌+◌, ◌-◌, ◌*◌, ◌^◌, ◌<◌, true};
ghost use Rattle.std.specs.Option.{SomeIff};
ghost use Rattle.digits.specs.Number.{is_digit, all_digits, decimal_of, number_of};

/// Why a word is no number.
#[derive(Clone, Copy)]
pub enum NumberError {
    /// The word has a character that is no decimal digit, or no character at all.
    NotANumber,
    /// The number is above 18446744073709551615.
    TooLarge,
}

fn all_digits(word: &[u8]) -> bool
    ensures { result ≡ all_digits word.now }
{
    word.iter().all(u8::is_ascii_digit)
}

// A number continued by one more digit.
fn with_digit(number: u64, digit: u8) -> Option<u64>
    requires { is_digit digit ≡ true }
    ensures { SomeIff result (number * 10 + (digit - 48) < 2 ^ 64) (number * 10 + (digit - 48)) }
{
    number.checked_mul(10)?.checked_add(u64::from(digit - b'0'))
}

// The number that decimal digits write.
fn value(digits: &[u8]) -> Option<u64>
    requires { all_digits digits.now ≡ true }
    ensures { SomeIff result (decimal_of 0 digits.now < 2 ^ 64) (decimal_of 0 digits.now) }
{
    let mut number = 0;
    for digit in digits {
        number = with_digit(number, *digit)?;
    }
    Some(number)
}

/// The number that a word of decimal digits writes; leading zeros mean nothing.
pub fn number(word: &[u8]) -> Result<u64, NumberError>
    ensures { result ≡ number_of word.now }
{
    if word.is_empty() || !all_digits(word) {
        return Err(NumberError::NotANumber);
    }
    value(word).ok_or(NumberError::TooLarge)
}
