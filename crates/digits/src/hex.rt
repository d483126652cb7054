//! Octets as pairs of hexadecimal digits.
ghost use Rattle.std.specs.Prelude.{◌≡◌, ◌<◌, IfSome, Ok, MatchResult};
ghost use Rattle.digits.specs.Hex.{digit_of, pair_of, octets_of, Refuses};
ghost use Rattle.digits.specs.declared.hex.HexError.TheVariants.{OutOfMemory};

use std::alloc::{AllocError, AllocFailed, Global};
use std::fmt;
use thiserror::Error;

/// Why a text is no row of octets.
#[derive(Clone, Copy, Debug, Error)]
pub enum HexError {
    /// A digit has no second one.
    #[error("hexadecimal digits come in pairs")]
    OddDigits,
    /// A character is no hexadecimal digit.
    #[error("not a hexadecimal digit")]
    NotADigit,
    /// There is no memory for the octets.
    #[error("out of memory")]
    OutOfMemory,
}

// By hand: clauses name what `?` makes of an error, and a derived `From` has no contract.
impl From<AllocError> for HexError {
    ghost from_gives = { λ _ r. r ≡ OutOfMemory };

    fn from(_e: AllocError) -> HexError {
        HexError::OutOfMemory
    }
}

// By hand for the same reason.
impl<T: Drop> From<AllocFailed<T>> for HexError {
    ghost from_gives = { λ _ r. r ≡ OutOfMemory };

    fn from(_e: AllocFailed<T>) -> HexError {
        HexError::OutOfMemory
    }
}

/// The value of a hexadecimal digit of either case.
pub fn digit_value(digit: u8) -> Option<u8>
    ensures value { result ≡ digit_of digit }
    ensures small { IfSome result (λ v. v < 16) }
{
    char::from(digit).to_digit(16).map(|value| value as u8)
}

/// The octet that two hexadecimal digits write, the upper half first.
pub fn pair_value(upper: u8, lower: u8) -> Option<u8>
    ensures { result ≡ pair_of (digit_of upper) (digit_of lower) }
{
    let upper = digit_value(upper)?;
    let lower = digit_value(lower)?;
    Some(upper * 16 + lower)
}

/// The octets that a text of hexadecimal digits writes, a pair for each.
pub fn octets(heap: Global, text: &[u8]) -> Result<Vec<u8>, HexError>
    ensures { MatchResult result (λ v. octets_of text.now ≡ Ok v.items) (λ e. Refuses text.now e) }
{
    let (pairs, rest) = text.as_chunks::<2>();
    let mut found = Vec::with_capacity(heap, pairs.len())?;
    for [upper, lower] in pairs {
        found.push(pair_value(*upper, *lower).ok_or(HexError::NotADigit)?)?;
    }
    if rest.is_empty() {
        Ok(found)
    } else {
        Err(HexError::OddDigits)
    }
}

/// Octets, shown as pairs of capital hexadecimal digits.
#[derive(Clone, Copy)]
pub struct Hex<'a>(pub &'a [u8]);

impl<'a> fmt::Display for Hex<'a> {
    fn fmt<W: fmt::Write>(&self, f: &mut fmt::Formatter<W>) -> fmt::Result {
        for octet in self.0 {
            write!(f, "{octet:02X}")?;
        }
        Ok(())
    }
}
