//! Envelopes.

ghost use Rattle.std.specs.Prelude.{◌≡◌, ◌≤◌};
ghost use Rattle.uda_packet.specs.Envelope.{envelope_of, envelope_words};

/// The envelope below a message text: the fields of its two words.
///
/// UDA50 Programmer's Documentation Kit: message envelopes.
#[derive(Clone, Copy, PartialEq, Eq, Debug)]
pub struct Envelope {
    /// Length of the text in bytes.
    pub length: u16,
    /// Credits granted, at most 15.
    pub credits: u8,
    /// Message type, at most 15; 0 is sequential.
    pub kind: u8,
    /// Connection; 0 is MSCP.
    pub connection: u8,
}

impl Envelope {
    /// Returns the envelope in two words. The first is the length. The second has credits in bits 3-0,
    /// message type in bits 7-4 and connection in bits 15-8.
    pub fn of_words(length: u16, grant: u16) -> Envelope
        ensures envelope { result ≡ envelope_of length grant }
        ensures few_credits { result.credits ≤ 15 }
        ensures small_kind { result.kind ≤ 15 }
        ensures back { envelope_words result ≡ (length, grant) }
    {
        let [low, connection] = grant.to_le_bytes();
        Envelope {
            length,
            credits: low & 0xf,
            kind: low >> 4,
            connection,
        }
    }

    /// Returns the two words of the envelope, in the form that `of_words` reads. Credits and message type
    /// must be at most 15.
    pub fn words(&self) -> (u16, u16)
        requires few_credits { self.now.credits ≤ 15 }
        requires small_kind { self.now.kind ≤ 15 }
        ensures words { result ≡ envelope_words self.now }
        ensures back { envelope_of result.0 result.1 ≡ self.now }
    {
        let low = 16 * self.kind + self.credits;
        (self.length, u16::from_le_bytes([low, self.connection]))
    }
}
