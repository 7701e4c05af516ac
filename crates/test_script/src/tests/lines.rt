//! The requests of a script's lines, by their texts.
use std::alloc::{AllocError, Global};
use std::test::Fail;
use uda_grammar::{Amount, Line, ScriptError, Statement, parse};

/// Texts of one line, each with its statement.
static LINES: [(&str, Statement); 13] = [
    (
        "online 65535 protect\n",
        Statement::Online {
            unit: 65_535,
            protect: true,
        },
    ),
    (
        "online 0\n",
        Statement::Online {
            unit: 0,
            protect: false,
        },
    ),
    ("available 0", Statement::Available { unit: 0 }),
    ("status 0\n\n", Statement::Status { unit: 0 }),
    (
        "read 1 20 4294967295\n",
        Statement::Read {
            unit: 1,
            lbn: 20,
            amount: Amount::Blocks(4_294_967_295),
        },
    ),
    (
        "access 1 20 4294967295\n",
        Statement::Access {
            unit: 1,
            lbn: 20,
            amount: Amount::Blocks(4_294_967_295),
        },
    ),
    (
        "erase 1 20 4294967295\n",
        Statement::Erase {
            unit: 1,
            lbn: 20,
            amount: Amount::Blocks(4_294_967_295),
        },
    ),
    (
        "readb 1 20 4294967295\n",
        Statement::Read {
            unit: 1,
            lbn: 20,
            amount: Amount::Bytes(4_294_967_295),
        },
    ),
    (
        "accessb 1 20 4294967295\n",
        Statement::Access {
            unit: 1,
            lbn: 20,
            amount: Amount::Bytes(4_294_967_295),
        },
    ),
    (
        "eraseb 1 20 4294967295\n",
        Statement::Erase {
            unit: 1,
            lbn: 20,
            amount: Amount::Bytes(4_294_967_295),
        },
    ),
    (
        "writeb 1 20 16384",
        Statement::Write {
            unit: 1,
            lbn: 20,
            amount: Amount::Bytes(16_384),
        },
    ),
    (
        "write 3 4294967295 32\n",
        Statement::Write {
            unit: 3,
            lbn: 4_294_967_295,
            amount: Amount::Blocks(32),
        },
    ),
    (
        "fill 3 4294967295 32 a5",
        Statement::Fill {
            unit: 3,
            lbn: 4_294_967_295,
            count: 32,
            byte: 0xa5,
        },
    ),
];

/// Texts with a line that has none of the forms, and that line's number.
static BAD: [(&str, u64); 22] = [
    ("writeb 1 20 16385", 1),
    ("readb 1 20 02", 1),
    ("fillb 1 20 2 a5", 1),
    ("# x\n\nbad\n", 3),
    ("read 0 1 1\nread 0 01 1\n", 2),
    ("online 0 protected", 1),
    ("available 65536", 1),
    ("status 0 ", 1),
    (" status 0", 1),
    ("status  0", 1),
    ("status 0\r\n", 1),
    ("status", 1),
    ("status ", 1),
    ("Status 0", 1),
    ("read 0 0", 1),
    ("read 0 0 4294967296", 1),
    ("write 0 0 33", 1),
    ("fill 0 0 33 00", 1),
    ("fill 0 0 1 A5", 1),
    ("fill 0 0 1 5", 1),
    ("fill 0 0 1", 1),
    (" # x", 1),
];

/// Lines that request the state of two units, among lines without requests.
const TWO: &[u8] = b"# x\r\n\nstatus 2\n#\nstatus 3";

/// The two lines.
static LINES_OF_TWO: [Line; 2] = [
    Line {
        number: 3,
        statement: Statement::Status { unit: 2 },
    },
    Line {
        number: 5,
        statement: Statement::Status { unit: 3 },
    },
];

// Returns whether these are the lines of a text.
fn are_lines(alloc: Global, text: &[u8], lines: &[Line]) -> bool {
    match parse(alloc, text) {
        Ok(script) => script.lines() == lines,
        Err(_) => false,
    }
}

// Returns whether a text has no script, since this line of it is none.
fn is_bad(alloc: Global, text: &str, line: u64) -> bool {
    parse(alloc, text.as_bytes()).err() == Some(ScriptError::Syntax { line })
}

#[test]
fn lines(rt: HostRuntime) {
    for &(text, statement) in &LINES {
        let number = 1;
        let line = Line { number, statement };
        assert!(rt; are_lines(rt.alloc(), text.as_bytes(), &[line]), "{text}");
    }
    for &(text, line) in &BAD {
        assert!(rt; is_bad(rt.alloc(), text, line), "{text}");
    }
    assert!(rt; are_lines(rt.alloc(), TWO, &LINES_OF_TWO));
    assert!(rt; are_lines(rt.alloc(), b"", &[]));
}

// Returns a text of this many requests, followed by this end.
fn many(alloc: Global, count: usize, end: &str) -> Result<Vec<u8>, AllocError> {
    let mut text = Vec::new(alloc);
    for _ in 0..count {
        text.extend_from_slice(b"status 0\n")?;
    }
    text.extend_from_slice(end.as_bytes())?;
    Ok(text)
}

// Returns the number of requests of a text.
fn requests_of(alloc: Global, text: &[u8]) -> Result<usize, ScriptError> {
    match parse(alloc, text) {
        Ok(script) => Ok(script.lines().len()),
        Err(error) => Err(error),
    }
}

#[test]
fn a_script_has_4096_requests(rt: HostRuntime) -> Result<(), Fail> {
    for (count, end, wanted) in [
        (4096, "#\n", Ok(4096)),
        (4096, "bad\n", Err(ScriptError::Syntax { line: 4097 })),
        (4097, "", Err(ScriptError::TooManyLines)),
        (4097, "bad\n", Err(ScriptError::TooManyLines)),
    ] {
        let text = many(rt.alloc(), count, end)?;
        assert!(rt;
            requests_of(rt.alloc(), &text) == wanted,
            "{count} requests, {end}"
        );
    }
    Ok(())
}
