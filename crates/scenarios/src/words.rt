//! The words of a line.
use crate::fault::CaseFault;
use arrayvec::ArrayVec;

/// The most words of each side of `=`.
pub const LINE_WORDS: usize = 96;

/// The words of a text.
pub type Split<'a> = ArrayVec<&'a str, LINE_WORDS>;

/// Splits a text into its words.
pub fn split(text: &str) -> Result<Split<'_>, CaseFault> {
    let mut words = ArrayVec::new();
    for word in text.split_whitespace() {
        if words.try_push(word).is_err() {
            return Err(CaseFault::MoreWords);
        }
    }
    Ok(words)
}

/// The words of a line that have not been taken yet.
#[derive(Drop)]
pub struct Words<'a> {
    all: &'a [&'a str],
    taken: usize,
}

impl<'a> Words<'a> {
    /// Returns the words of a line, none of which is taken.
    pub fn new(all: &'a [&'a str]) -> Words<'a> {
        Words { all, taken: 0 }
    }

    /// Returns the number of words that are left.
    pub fn count(&self) -> usize {
        self.all.len().saturating_sub(self.taken)
    }

    /// Takes the next word, if there is one.
    pub fn next(&mut self) -> Option<&'a str> {
        let word = self.all.get(self.taken).copied()?;
        self.taken = self.taken.saturating_add(1);
        Some(word)
    }

    /// Takes the next word if it is this one, and returns whether it was.
    pub fn takes(&mut self, word: &str) -> bool {
        match self.all.get(self.taken) {
            Some(next) if *next == word => {
                self.taken = self.taken.saturating_add(1);
                true
            }
            _ => false,
        }
    }

    /// Takes the next word, which is of this kind.
    pub fn word(&mut self, kind: &'static str) -> Result<&'a str, CaseFault> {
        self.next().ok_or(CaseFault::Wanted(kind))
    }

    /// Takes a hexadecimal number of at most 32 bits.
    pub fn address(&mut self) -> Result<u32, CaseFault> {
        let kind = "a hexadecimal number";
        parse_hexadecimal(self.word(kind)?).ok_or(CaseFault::Wanted(kind))
    }

    /// Takes a hexadecimal number of at most 16 bits.
    pub fn hex(&mut self) -> Result<u16, CaseFault> {
        match u16::try_from(self.address()?) {
            Ok(value) => Ok(value),
            Err(_) => Err(CaseFault::Wanted("a hexadecimal word")),
        }
    }

    /// Takes a hexadecimal number of at most 8 bits.
    pub fn byte(&mut self) -> Result<u8, CaseFault> {
        match u8::try_from(self.address()?) {
            Ok(value) => Ok(value),
            Err(_) => Err(CaseFault::Wanted("a hexadecimal byte")),
        }
    }

    /// Takes the number of a unit.
    pub fn unit(&mut self) -> Result<usize, CaseFault> {
        let kind = "a decimal number";
        match self.word(kind)?.parse::<usize>() {
            Ok(value) => Ok(value),
            Err(_) => Err(CaseFault::Wanted(kind)),
        }
    }

    /// Takes a decimal number of at most 32 bits.
    pub fn number(&mut self) -> Result<u32, CaseFault> {
        match u32::try_from(self.unit()?) {
            Ok(value) => Ok(value),
            Err(_) => Err(CaseFault::Wanted("a decimal number of 32 bits")),
        }
    }

    /// Takes a decimal number of at most 16 bits.
    pub fn small(&mut self) -> Result<u16, CaseFault> {
        match u16::try_from(self.unit()?) {
            Ok(value) => Ok(value),
            Err(_) => Err(CaseFault::Wanted("a decimal number of 16 bits")),
        }
    }

    /// Fails if a word is left.
    pub fn end(&self) -> Result<(), CaseFault> {
        if self.count() == 0 {
            Ok(())
        } else {
            Err(CaseFault::MoreWords)
        }
    }
}

// Returns the value of a hexadecimal digit.
fn hexadecimal_value(digit: u8) -> Option<u32> {
    match digit {
        b'0'..=b'9' => Some(u32::from(digit - b'0')),
        b'a'..=b'f' => Some(u32::from(digit - b'a') + 10),
        _ => None,
    }
}

// Returns the hexadecimal number of at most 32 bits that a word has.
fn parse_hexadecimal(word: &str) -> Option<u32> {
    if word.is_empty() {
        return None;
    }
    let mut value = 0u32;
    for digit in word.bytes() {
        value = value
            .checked_mul(16)?
            .checked_add(hexadecimal_value(digit)?)?;
    }
    Some(value)
}

/// Returns whether two texts have the same words, except for leading zeros.
pub fn are_alike(one: &str, other: &str) -> Result<bool, CaseFault> {
    let one = split(one)?;
    let other = split(other)?;
    if one.len() != other.len() {
        return Ok(false);
    }
    for (a, b) in one.as_slice().iter().zip(other.as_slice()) {
        if a.trim_start_matches('0') != b.trim_start_matches('0') {
            return Ok(false);
        }
    }
    Ok(true)
}
