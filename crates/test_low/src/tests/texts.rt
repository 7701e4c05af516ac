//! Facts that no clause states: the bytes of the worked examples, and the printed texts.

ghost use Rattle.std.specs.Prelude.{◌≡◌};

use super::prints;
use std::test::Fail;
use uda_packet::{
    Bad, BadKind, Command, End, EndBody, Envelope, Kind, Op, decode_command, decode_end,
    encode_command, encode_end,
};

// Encodes a command and decodes it again. The clause is the round trip, for any command.
fn command_again(command: &Command) -> Result<Command, Bad>
    ensures { result ≡ Ok command.now }
{
    decode_command(&encode_command(command))
}

// Encodes an end message and decodes it again.
fn end_again(end: &End) -> Option<End>
    ensures { result ≡ Some end.now }
{
    decode_end(&encode_end(end))
}

// Returns a text that begins with these bytes, and is 0 after them.
fn text_of(front: &[u8]) -> [u8; 48] {
    let mut text = [0; 48];
    let count = front.len().min(48);
    text[..count].copy_from_slice(&front[..count]);
    text
}

// Returns the text with 0xFF in every byte except the named ones.
fn with_noise(text: [u8; 48], named: &[usize]) -> [u8; 48] {
    let mut noisy = text;
    for (i, byte) in noisy.iter_mut().enumerate() {
        if !named.contains(&i) {
            *byte = 0xff;
        }
    }
    noisy
}

// Read of one block: reference 1, unit 0, 512 bytes, address 0x1000, block 5.
const READ: [u8; 32] = [
    0x01, 0x00, 0x00, 0x00, 0x00, 0x00, 0x00, 0x00, 0x21, 0x00, 0x00, 0x00, 0x00, 0x02, 0x00, 0x00,
    0x00, 0x10, 0x00, 0x00, 0x00, 0x00, 0x00, 0x00, 0x00, 0x00, 0x00, 0x00, 0x05, 0x00, 0x00, 0x00,
];

// Its end message.
const READ_END: [u8; 14] = [
    0x01, 0x00, 0x00, 0x00, 0x00, 0x00, 0x00, 0x00, 0xa1, 0x00, 0x00, 0x00, 0x00, 0x02,
];

// The end message of a Get Unit Status of an available unit 0.
const STATUS_END: [u8; 32] = [
    0x01, 0x00, 0x00, 0x00, 0x00, 0x00, 0x00, 0x00, 0x83, 0x00, 0x04, 0x00, 0x00, 0x00, 0x00, 0x00,
    0x00, 0x00, 0x00, 0x00, 0x00, 0x00, 0x00, 0x00, 0x00, 0x00, 0x00, 0x02, 0x51, 0x10, 0x64, 0x25,
];

// The end message of a Set Controller Characteristics.
const CONTROLLER_END: [u8; 28] = [
    0x01, 0x00, 0x00, 0x00, 0x00, 0x00, 0x00, 0x00, 0x84, 0x00, 0x00, 0x00, 0x00, 0x00, 0x00, 0x00,
    0x00, 0x00, 0x00, 0x00, 0x01, 0x00, 0x00, 0x00, 0x00, 0x00, 0x06, 0x01,
];

// The end message of an unknown opcode, reference 7, unit 2.
const UNKNOWN_END: [u8; 12] = [
    0x07, 0x00, 0x00, 0x00, 0x02, 0x00, 0x00, 0x00, 0x80, 0x00, 0x01, 0x08,
];

// Online of unit 3, reference 2, with software protection.
const ONLINE: [u8; 16] = [
    0x02, 0x00, 0x00, 0x00, 0x03, 0x00, 0x00, 0x00, 0x09, 0x00, 0x04, 0x00, 0x00, 0x00, 0x00, 0x10,
];

// Its end message, on 891,072 blocks.
const ONLINE_END: [u8; 48] = [
    0x02, 0x00, 0x00, 0x00, 0x03, 0x00, 0x00, 0x00, 0x89, 0x00, 0x00, 0x00, 0x00, 0x00, 0x00, 0x10,
    0x00, 0x00, 0x00, 0x00, 0x03, 0x00, 0x00, 0x00, 0x00, 0x00, 0x00, 0x02, 0x51, 0x10, 0x64, 0x25,
    0x00, 0x00, 0x00, 0x00, 0xc0, 0x98, 0x0d, 0x00, 0x00, 0x00, 0x00, 0x00, 0x00, 0x00, 0x00, 0x00,
];

const READ_COMMAND: Command = Command {
    reference: 1,
    unit: 0,
    op: Op::Read {
        bytes: 512,
        address: 0x1000,
        lbn: 5,
    },
};

const ONLINE_COMMAND: Command = Command {
    reference: 2,
    unit: 3,
    op: Op::Online { soft: Some(true) },
};

// Returns whether a command and a text are each other's.
fn are_alike(command: &Command, text: &[u8; 48]) -> bool {
    encode_command(command) == *text && is_command(text, command)
}

// Returns whether a text decodes to a command.
fn is_command(text: &[u8; 48], command: &Command) -> bool {
    decode_command(text) == Ok(*command)
}

#[test]
fn commands(rt: HostRuntime) {
    for (command, front) in [
        (READ_COMMAND, READ.as_slice()),
        (ONLINE_COMMAND, ONLINE.as_slice()),
    ] {
        assert!(rt; are_alike(&command, &text_of(front)));
        assert!(rt; command_again(&command) == Ok(command));
    }
    for (modifiers, flags, soft) in [
        (0x04, 0x30, Some(true)),
        (0x04, 0x20, Some(false)),
        (0x00, 0x10, None),
    ] {
        let text = text_of(&[2, 0, 0, 0, 3, 0, 0, 0, 9, 0, modifiers, 0, 0, 0, 0, flags]);
        let op = Op::Online { soft };
        let command = Command {
            op,
            ..ONLINE_COMMAND
        };
        assert!(rt; is_command(&text, &command), "flags {flags}");
    }
}

fn end(reference: u32, unit: u16, status: u16, body: EndBody) -> End {
    End {
        reference,
        unit,
        status,
        body,
    }
}

const MOVED: EndBody = EndBody::Moved {
    kind: Kind::Read,
    bytes: 512,
};

const AVAILABLE: EndBody = EndBody::Status { flags: 0 };

const BROUGHT_ONLINE: EndBody = EndBody::Online {
    flags: 0x1000,
    size: 891_072,
};

// Returns whether an end message and a text are each other's.
fn are_ends(end: &End, text: &[u8; 48]) -> bool {
    encode_end(end) == *text && is_end(text, end) && end_again(end) == Some(*end)
}

// Returns whether a text decodes to an end message.
fn is_end(text: &[u8; 48], end: &End) -> bool {
    decode_end(text) == Some(*end)
}

#[test]
fn ends_are_written_and_read(rt: HostRuntime) {
    let mut too_long = text_of(&UNKNOWN_END);
    too_long[11] = 0;
    for (end, text) in [
        (end(1, 0, 0, MOVED), text_of(&READ_END)),
        (end(1, 0, 0x0004, AVAILABLE), text_of(&STATUS_END)),
        (end(2, 3, 0, BROUGHT_ONLINE), ONLINE_END),
        (end(7, 2, 0x0001, EndBody::Invalid), too_long),
        (end(1, 0, 0, EndBody::Controller), text_of(&CONTROLLER_END)),
    ] {
        assert!(rt; are_ends(&end, &text), "{end}");
    }
    // a packet of invalid length
    let other = End::for_invalid_length(&text_of(&UNKNOWN_END));
    assert!(rt; other == end(7, 2, 0x0001, EndBody::Invalid));
}

/// Commands that are rejected: the invalid field, the end message's body and status, and the printed text.
static REFUSED: [(&[u8], BadKind, EndBody, u16, &str); 4] = [
    (
        &[7, 0, 0, 0, 2, 0, 0, 0, 0x0b],
        BadKind::Opcode,
        EndBody::Invalid,
        0x0801,
        "reference 7, unit 2: no command has this opcode",
    ),
    // an unknown opcode is checked before a stray modifier
    (
        &[7, 0, 0, 0, 2, 0, 0, 0, 0x0b, 0, 1, 0],
        BadKind::Opcode,
        EndBody::Invalid,
        0x0801,
        "reference 7, unit 2: no command has this opcode",
    ),
    // a stray modifier of a Set Controller Characteristics is checked before its version
    (
        &[9, 0, 0, 0, 0, 0, 0, 0, 4, 0, 1, 0, 1, 0],
        BadKind::Modifiers,
        EndBody::Controller,
        0x0a01,
        "reference 9, unit 0: a modifier is none of the command's",
    ),
    (
        &[9, 0, 0, 0, 0, 0, 0, 0, 4, 0, 0, 0, 1, 0],
        BadKind::Version,
        EndBody::Controller,
        0x0c01,
        "reference 9, unit 0: the version of MSCP is not 0",
    ),
];

#[test]
fn faults(rt: HostRuntime) -> Result<(), Fail> {
    for &(front, kind, body, status, text) in &REFUSED {
        let bad = decode_command(&text_of(front)).err().ok_or("no fault")?;
        let end = bad.end();
        let is_right = bad.kind == kind && bad.body == body && end.status == status;
        assert!(rt; is_right && is_numbered(kind, &end), "{bad}");
        assert!(rt; prints(rt.alloc(), &bad, text)?, "{bad}");
    }
    Ok(())
}

// Returns whether an unknown opcode has its number and its end message.
fn is_numbered(kind: BadKind, end: &End) -> bool {
    kind != BadKind::Opcode || kind.number() == 1 && encode_end(end) == text_of(&UNKNOWN_END)
}

/// End messages with their texts: the reference, the unit, the status and the body.
static ENDS: [(u32, u16, u16, EndBody, &str); 5] = [
    (
        3,
        0,
        0,
        MOVED,
        "reference 3, unit 0, status 0x0000 (success): Read, 512 bytes",
    ),
    (
        2,
        3,
        0x0100,
        BROUGHT_ONLINE,
        "reference 2, unit 3, status 0x0100 (already online): Online, flags 0x1000, 891072 blocks",
    ),
    (
        1,
        0,
        0x0004,
        AVAILABLE,
        "reference 1, unit 0, status 0x0004 (available): Get Unit Status, flags 0x0000",
    ),
    (
        7,
        2,
        0x1234,
        EndBody::Invalid,
        "reference 7, unit 2, status 0x1234 (unknown status): invalid command",
    ),
    (
        1,
        0,
        0,
        EndBody::Controller,
        "reference 1, unit 0, status 0x0000 (success): Set Controller Characteristics",
    ),
];

#[test]
fn ends_as_texts(rt: HostRuntime) -> Result<(), Fail> {
    for &(reference, unit, status, body, text) in &ENDS {
        let end = end(reference, unit, status, body);
        assert!(rt; prints(rt.alloc(), &end, text)?, "{end}");
    }
    Ok(())
}

#[test]
fn other_bytes_are_ignored(rt: HostRuntime) {
    // a Read uses its reference, unit, opcode, modifiers, count, address and block
    let read = text_of(&READ);
    let named = [
        0, 1, 2, 3, 4, 5, 8, 10, 11, 12, 13, 14, 15, 16, 17, 18, 19, 28, 29, 30, 31,
    ];
    assert!(rt; is_command(&with_noise(read, &named), &READ_COMMAND));

    // the end flags, identifier and media type of an Online's end message are not decoded
    let named = [0, 1, 2, 3, 4, 5, 8, 10, 11, 14, 15, 36, 37, 38, 39];
    let wanted = end(2, 3, 0, BROUGHT_ONLINE);
    assert!(rt; is_end(&with_noise(ONLINE_END, &named), &wanted));

    // opcodes and end codes are distinct
    assert!(rt; decode_end(&read).is_none());
    assert!(rt; decode_command(&text_of(&READ_END)).is_err());
}

#[test]
fn envelopes(rt: HostRuntime) {
    let first = Envelope {
        length: 48,
        credits: 8,
        kind: 0,
        connection: 0,
    };
    assert!(rt; first.words() == (48, 0x0008));
    assert!(rt; Envelope::of_words(48, 0x0008) == first);
    let other = Envelope::of_words(60, 0x0251);
    assert!(rt; (other.credits, other.kind, other.connection) == (1, 5, 2));
    assert!(rt; other.words() == (60, 0x0251));
}
