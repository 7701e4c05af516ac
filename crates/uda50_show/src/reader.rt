//! Reading of packets from text.
ghost use Rattle.std.specs.Prelude.{◌≡◌, ◌<◌, ◌≤◌, ◌∷◌, ◌++◌, ◌↔◌, ◌⊎◌, [], length, None, IsSome, IfSome};
ghost use Rattle.std.specs.Prelude.{OnErr, IsOk, IfOk};
ghost use Rattle.std.specs.Char.{digit_value};
ghost use Rattle.std.specs.Str.Parse.{AllDigits, digits_value};
ghost use Rattle.uda50_show.specs.Tokens.{IsByteToken, IsWordToken, token_bytes, made_bytes};

use crate::packet::Packet;
use std::error::Error;
use std::fmt;
use std::marker::Model;

/// The error of a token that cannot be part of a packet.
#[derive(Clone, Copy, Debug, PartialEq, Eq)]
pub struct TokenError;

impl fmt::Display for TokenError {
    fn fmt<W: fmt::Write>(&self, f: &mut fmt::Formatter<W>) -> fmt::Result {
        f.write_str("expected a byte of two hexadecimal digits or a word of six octal digits")
    }
}

impl Error for TokenError {}

/// Collects the bytes of packets from tokens. Two hexadecimal digits are a byte. Six octal digits are a
/// word of two bytes, low byte first. Contracts see the bytes of the packet that isn't complete yet.
#[derive(Debug, Drop)]
pub struct PacketReader {
    bytes: [u8; 48],
    filled: usize,
}

impl Model for PacketReader {
    ghost use Rattle.std.specs.Prelude.{ℕ, List, ◌<◌, take};

    ghost Value = { List ℕ };

    ghost view = { λ reader. take reader.filled reader.bytes };

    ghost invariant = { λ reader. reader.filled < 48 };
}

impl PacketReader {
    /// Makes a reader without bytes.
    pub fn new() -> PacketReader
        ensures { result ≡ [] }
    {
        PacketReader {
            bytes: [0; 48],
            filled: 0,
        }
    }

    /// Returns the number of bytes that the next packet has so far.
    pub fn filled(&self) -> usize
        ensures value { result ≡ length self.now }
        ensures few { result < 48 }
    {
        self.filled
    }

    /// Adds a token, and returns the packet that it completes.
    pub fn push_token(&mut self, token: &str) -> Result<Option<Packet>, TokenError>
        ensures byte { IsByteToken token.now → IsOk result }
        ensures word { IsWordToken token.now → IsOk result }
        ensures token { IsOk result → IsByteToken token.now ⊎ IsWordToken token.now }
        ensures bytes { IfOk result (λ made.
            made_bytes made ++ self.new ≡ self.old ++ token_bytes token.now) }
        ensures unchanged { OnErr result (self.new ≡ self.old) }
    {
        match token.as_bytes() {
            [high, low] => {
                let byte = byte_of_token([*high, *low])?;
                if self.filled < 47 {
                    self.put(byte);
                    return Ok(None);
                }
                Ok(Some(self.complete(byte)))
            }
            [a, b, c, d, e, f] => {
                let [low, high] = word_of_token([*a, *b, *c, *d, *e, *f])?.to_le_bytes();
                if self.filled < 46 {
                    self.put(low);
                    self.put(high);
                    return Ok(None);
                }
                Ok(self.push_last_word(low, high))
            }
            _ => Err(TokenError),
        }
    }

    // Adds a byte that doesn't complete the packet.
    fn put(&mut self, byte: u8)
        requires { length self.old < 47 }
        ensures more { self.new ≡ self.old ++ byte ∷ [] }
    {
        self.bytes[self.filled] = byte;
        self.filled += 1;
    }

    // Adds the last byte of a packet, and returns the packet. It isn't inlined, since most tokens complete
    // none.
    #[inline(never)]
    fn complete(&mut self, byte: u8) -> Packet
        requires { length self.old ≡ 47 }
        ensures whole { self.new ≡ [] }
        ensures packet { result.0 ≡ self.old ++ byte ∷ [] }
    {
        self.bytes[self.filled] = byte;
        self.filled = 0;
        Packet(self.bytes)
    }

    // Adds the bytes of a word, of which one completes the packet, and returns the packet. It isn't inlined,
    // since most tokens complete none.
    #[inline(never)]
    fn push_last_word(&mut self, low: u8, high: u8) -> Option<Packet>
        requires { 46 ≤ length self.old }
        ensures some { IsSome result }
        ensures packet { IfSome result (λ packet. packet.0 ++ self.new ≡ self.old ++ low ∷ high ∷ []) }
    {
        if self.filled < 47 {
            self.put(low);
            return Some(self.complete(high));
        }
        let packet = self.complete(low);
        self.put(high);
        Some(packet)
    }
}

/// The value of each character as a digit. A letter of either case follows the nine digits, and any other
/// character has 36, which is no digit's value.
static DIGIT_VALUES: [u8; 256] = [
    36, 36, 36, 36, 36, 36, 36, 36, 36, 36, 36, 36, 36, 36, 36, 36, 36, 36, 36, 36, 36, 36, 36, 36,
    36, 36, 36, 36, 36, 36, 36, 36, 36, 36, 36, 36, 36, 36, 36, 36, 36, 36, 36, 36, 36, 36, 36, 36,
    0, 1, 2, 3, 4, 5, 6, 7, 8, 9, 36, 36, 36, 36, 36, 36, 36, 10, 11, 12, 13, 14, 15, 16, 17, 18,
    19, 20, 21, 22, 23, 24, 25, 26, 27, 28, 29, 30, 31, 32, 33, 34, 35, 36, 36, 36, 36, 36, 36, 10,
    11, 12, 13, 14, 15, 16, 17, 18, 19, 20, 21, 22, 23, 24, 25, 26, 27, 28, 29, 30, 31, 32, 33, 34,
    35, 36, 36, 36, 36, 36, 36, 36, 36, 36, 36, 36, 36, 36, 36, 36, 36, 36, 36, 36, 36, 36, 36, 36,
    36, 36, 36, 36, 36, 36, 36, 36, 36, 36, 36, 36, 36, 36, 36, 36, 36, 36, 36, 36, 36, 36, 36, 36,
    36, 36, 36, 36, 36, 36, 36, 36, 36, 36, 36, 36, 36, 36, 36, 36, 36, 36, 36, 36, 36, 36, 36, 36,
    36, 36, 36, 36, 36, 36, 36, 36, 36, 36, 36, 36, 36, 36, 36, 36, 36, 36, 36, 36, 36, 36, 36, 36,
    36, 36, 36, 36, 36, 36, 36, 36, 36, 36, 36, 36, 36, 36, 36, 36, 36, 36, 36, 36, 36, 36, 36, 36,
    36, 36, 36, 36, 36, 36, 36, 36, 36, 36, 36, 36, 36, 36,
];

// Returns the byte of a token of two digits.
fn byte_of_token(token: [u8; 2]) -> Result<u8, TokenError>
    ensures value { IfOk result (λ byte. byte ≡ digits_value 16 token) }
    ensures ok { IsOk result ↔ IsByteToken token }
{
    let [high, low] = token;
    match (value_below(high, 16), value_below(low, 16)) {
        (Some(high), Some(low)) => Ok((16 * high + low) as u8),
        _ => Err(TokenError),
    }
}

// Returns the word of a token of six digits.
fn word_of_token(token: [u8; 6]) -> Result<u16, TokenError>
    ensures value { IfOk result (λ word. word ≡ digits_value 8 token) }
    ensures ok { IsOk result ↔ IsWordToken token }
{
    let [a, b, c, d, e, f] = token;
    let (Some(high), Some(low)) = (three_digits(a, b, c), three_digits(d, e, f)) else {
        return Err(TokenError);
    };
    if high < 128 {
        Ok((512 * high + low) as u16)
    } else {
        Err(TokenError)
    }
}

// Returns the number of three octal digits, which is below 512.
fn three_digits(a: u8, b: u8, c: u8) -> Option<u32>
    ensures value { IfSome result (λ number. number ≡ digits_value 8 (a ∷ b ∷ c ∷ [])) }
    ensures some { IsSome result ↔ AllDigits 8 (a ∷ b ∷ c ∷ []) }
    ensures small { IfSome result (λ number. number < 512) }
{
    Some(64 * value_below(a, 8)? + 8 * value_below(b, 8)? + value_below(c, 8)?)
}

// Returns the value of a digit. A letter above the digits of the radix is none.
fn value_below(byte: u8, radix: u32) -> Option<u32>
    requires low { 2 ≤ radix }
    requires high { radix ≤ 16 }
    ensures value { IfSome result (λ d. d ≡ digit_value byte) }
    ensures some { IsSome result ↔ digit_value byte < radix }
{
    let value = digit_value(byte);
    if value < radix { Some(value) } else { None }
}

// Returns the value of a character as a digit, which is below 36 if it is one.
#[tactic(auto, using(crate::proofs::DigitValues::value_at))]
fn digit_value(byte: u8) -> u32
    ensures { result ≡ digit_value byte }
{
    u32::from(DIGIT_VALUES[usize::from(byte)])
}
