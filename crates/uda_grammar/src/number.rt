//! Parsing of numbers.
ghost use Rattle.std.specs.Prelude.{◌≡◌};
ghost use Rattle.uda_grammar.specs.Words.{number_of, unit_named, nibble_of, byte_of};

/// Returns the decimal number of a word without leading zeros, if it is at most `most`.
pub(crate) fn number(word: &[u8], most: u32) -> Option<u32>
    ensures number { result ≡ number_of most word.now }
{
    if word.is_empty() || (word.len() > 1 && word[0] == b'0') {
        return None;
    }
    let mut value = 0u32;
    for digit in word {
        if !digit.is_ascii_digit() {
            return None;
        }
        value = value
            .checked_mul(10)?
            .checked_add(u32::from(*digit - b'0'))?;
    }
    if value > most { None } else { Some(value) }
}

/// Returns the unit number of a word.
pub(crate) fn unit(word: &[u8]) -> Option<u16>
    ensures unit { result ≡ unit_named word.now }
{
    u16::try_from(number(word, u32::from(u16::MAX))?).ok()
}

// Returns the value of a hexadecimal digit in lower case.
fn nibble(digit: u8) -> Option<u8>
    ensures nibble { result ≡ nibble_of digit }
{
    match digit {
        b'0'..=b'9' => Some(digit - b'0'),
        b'a'..=b'f' => Some(digit - b'a' + 10),
        _ => None,
    }
}

/// Returns the byte of two hexadecimal digits in lower case.
pub(crate) fn byte(word: &[u8]) -> Option<u8>
    ensures byte { result ≡ byte_of word.now }
{
    let [high, low] = word else {
        return None;
    };
    Some(16 * nibble(*high)? + nibble(*low)?)
}
