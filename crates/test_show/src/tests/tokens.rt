//! Tokens, compared with tokens that are parsed as numbers.
ghost use Rattle.std.specs.Prelude.{◌≤◌};

use rand_core::{Rng, SeedableRng};
use rand_pcg::Pcg32;
use std::test::Fail;
use uda50_show::{Packet, PacketReader, TokenError};

/// The slower form of a [`PacketReader`].
#[derive(Drop)]
struct ParsingReader {
    bytes: [u8; 48],
    filled: usize,
}

impl ParsingReader {
    fn push_token(&mut self, token: &str) -> Result<Option<Packet>, TokenError> {
        match token.len() {
            2 => {
                let [byte, _] = digits(token, 16)?.to_le_bytes();
                Ok(self.push(byte))
            }
            6 => {
                let [low, high] = digits(token, 8)?.to_le_bytes();
                let first = self.push(low);
                let second = self.push(high);
                Ok(first.or(second))
            }
            _ => Err(TokenError),
        }
    }

    fn push(&mut self, byte: u8) -> Option<Packet> {
        let filled = self.filled % 48;
        self.bytes[filled] = byte;
        self.filled = (filled + 1) % 48;
        if self.filled > 0 {
            return None;
        }
        Some(Packet(self.bytes))
    }
}

fn digits(token: &str, radix: u32) -> Result<u16, TokenError>
    requires low { 2 ≤ radix }
    requires high { radix ≤ 16 }
{
    match token.as_bytes() {
        [b'+', ..] => Err(TokenError),
        _ => u16::from_str_radix(token, radix).map_err(|_| TokenError),
    }
}

// What the random tokens are made of.
const CHARACTERS: &str = "0123456701234567012345670123456789abcdefABCDEFgG+- #\u{e9}";

// Makes a random token.
fn make_token(token: &mut String, rng: &mut Pcg32) -> Result<(), Fail> {
    token.clear();
    let length = [2, 2, 2, 6, 6, 6, 1, 3][rng.next_u32() as usize % 8];
    for _ in 0..length {
        let at = rng.next_u32() as usize % 53;
        token.push(CHARACTERS.chars().nth(at).unwrap_or('0'))?;
    }
    Ok(())
}

/// Random tokens of up to six characters, most of them digits, give the same packets and errors, and as
/// many bytes of the next packet.
#[test]
fn tokens_are_as_parsed(rt: HostRuntime) -> Result<(), Fail> {
    let mut rng = Pcg32::seed_from_u64(2);
    let mut reader = PacketReader::new();
    let mut parsing = ParsingReader {
        bytes: [0; 48],
        filled: 0,
    };
    let mut token = String::new(rt.alloc());
    for _ in 0..20_000 {
        make_token(&mut token, &mut rng)?;
        let is_same = reader.push_token(token.as_str()) == parsing.push_token(token.as_str())
            && reader.filled() == parsing.filled;
        assert!(rt; is_same, "{token}");
    }
    Ok(())
}
