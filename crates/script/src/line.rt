//! The lines of a call script.
ghost use Rattle.std.specs.Prelude.{◌≡◌, ◌≢◌, length, Some, MatchResult};
ghost use Rattle.std.specs.Iterator.{at_most};
ghost use Rattle.script.specs.declared.line.Keyword.{Keyword};
ghost use Rattle.script.specs.Keyword.{word_of};

use digits::hex::{HexError, octets};
use digits::number::{NumberError, number};
use history::call::Call;
use std::alloc::{AllocError, Global};
use std::fmt;
use thiserror::Error;

/// The most octets that an `area` line may set.
pub const MOST_AREA: u64 = 1048576;

/// The words that a line may begin with.
#[derive(Clone, Copy, Debug)]
pub enum Keyword {
    Area,
    Request,
    Accept,
    Complete,
    Clock,
}

impl fmt::Display for Keyword {
    ghost output = { λ keyword. Some (word_of keyword) };

    fn fmt<W: fmt::Write>(&self, f: &mut fmt::Formatter<W>) -> fmt::Result {
        f.write_str(match *self {
            Keyword::Area => "area",
            Keyword::Request => "request",
            Keyword::Accept => "accept",
            Keyword::Complete => "complete",
            Keyword::Clock => "clock",
        })
    }
}

/// A word that no line begins with.
#[derive(Drop)]
pub struct NotAKeyword;

/// What a line says.
#[derive(Drop)]
pub enum Line {
    /// Nothing: the line is empty, or a comment.
    Blank,
    /// The calls that follow bring an area of so many octets.
    Area(usize),
    /// A call on the service; a completion is of the request of an `accept` line.
    Call(Call<Vec<u8>>),
}

/// What is wrong with a line.
#[derive(Debug, Drop, Error)]
pub enum LineError {
    /// No line begins with this word.
    #[error("unknown word: {0}")]
    UnknownWord(String),
    /// There is a word more than this line takes.
    #[error("too many words: {0} takes {takes}", takes = .0.takes())]
    TooManyWords(Keyword),
    /// The number that this line takes is missing.
    #[error("a number is wanted after {0}")]
    NumberMissing(Keyword),
    /// The word after this one is no number.
    #[error("a number is wanted after {0}, in decimal digits alone")]
    NotANumber(Keyword),
    /// The number is above the most that this line takes.
    #[error("number too large: {0} takes at most {1}")]
    NumberTooLarge(Keyword, u64),
    /// The word is no row of octets.
    #[error("{0}")]
    Hex(#[from] HexError),
    /// There is no memory for the line.
    #[error("out of memory")]
    OutOfMemory(#[from(alloc)] AllocError),
}

impl Keyword {
    // What stands after the word.
    fn takes(self) -> &'static str {
        match self {
            Keyword::Request | Keyword::Accept => "one word of hexadecimal digits",
            Keyword::Area | Keyword::Complete | Keyword::Clock => "one number",
        }
    }
}

impl TryFrom<&[u8]> for Keyword {
    type Error = NotAKeyword;

    ghost try_from_gives = { λ word keyword. MatchResult keyword (λ k. word.now ≡ word_of k) (λ _. (k : Keyword) → word.now ≢ word_of k) };

    fn try_from(word: &[u8]) -> Result<Keyword, NotAKeyword> {
        match word {
            b"area" => Ok(Keyword::Area),
            b"request" => Ok(Keyword::Request),
            b"accept" => Ok(Keyword::Accept),
            b"complete" => Ok(Keyword::Complete),
            b"clock" => Ok(Keyword::Clock),
            _ => Err(NotAKeyword),
        }
    }
}

// The number after a keyword.
fn number_of(keyword: Keyword, word: Option<&[u8]>, most: u64) -> Result<u64, LineError> {
    let word = word.ok_or(LineError::NumberMissing(keyword))?;
    match number(word) {
        Ok(n) if n <= most => Ok(n),
        Ok(_) | Err(NumberError::TooLarge) => Err(LineError::NumberTooLarge(keyword, most)),
        Err(NumberError::NotANumber) => Err(LineError::NotANumber(keyword)),
    }
}

fn is_blank(octet: u8) -> bool {
    matches!(octet, b' ' | b'\t' | b'\r')
}

// The words of a line, between blanks. No `split`: its piece for each of many blanks costs as much
// as a word.
#[derive(Drop)]
struct Words<'a>(&'a [u8]);

impl<'a> Iterator for Words<'a> {
    type Item = &'a [u8];

    ghost remaining = { λ words. at_most (length words.0.now) };

    fn next(&mut self) -> Option<&'a [u8]> {
        let start = self.0.iter().position(|octet| !is_blank(*octet))?;
        let (_, rest) = self.0.split_at(start);
        let end = rest.iter().position(|octet| is_blank(*octet));
        let (word, rest) = rest.split_at(end.unwrap_or(rest.len()));
        self.0 = match rest {
            [_, rest @ ..] => rest,
            [] => &[],
        };
        Some(word)
    }
}

/// Reads a line, without its newline.
pub fn read_line(heap: Global, text: &[u8]) -> Result<Line, LineError> {
    let mut words = Words(text);
    let first = match words.next() {
        None | Some([b'#', ..]) => return Ok(Line::Blank),
        Some(word) => word,
    };
    let Ok(keyword) = Keyword::try_from(first) else {
        return Err(LineError::UnknownWord(String::from_utf8_lossy(heap, first)?));
    };
    let second = words.next();
    if words.next().is_some() {
        return Err(LineError::TooManyWords(keyword));
    }
    Ok(match keyword {
        Keyword::Area => Line::Area(number_of(keyword, second, MOST_AREA)? as usize),
        Keyword::Request => Line::Call(Call::Request(octets(heap, second.unwrap_or(&[]))?)),
        Keyword::Accept => Line::Call(Call::Accept(octets(heap, second.unwrap_or(&[]))?)),
        Keyword::Complete => {
            Line::Call(Call::Complete(number_of(keyword, second, u64::MAX)? as usize))
        }
        Keyword::Clock => Line::Call(Call::SetClock(number_of(keyword, second, u64::MAX)?)),
    })
}

#[cfg(test)]
mod tests {
    use super::*;

    #[test]
    fn words(rt: HostRuntime) {
        let mut words = Words(b" \t\r clock\t\t 7\r");
        assert!(rt; matches!(words.next(), Some(b"clock")));
        assert!(rt; matches!(words.next(), Some(b"7")));
        assert!(rt; words.next().is_none());
        assert!(rt; words.next().is_none());
    }

    #[test]
    fn no_words(rt: HostRuntime) {
        assert!(rt; Words(b"").next().is_none());
        assert!(rt; Words(b"\r\t  ").next().is_none());
    }
}
