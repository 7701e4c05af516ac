//! Commands and end messages, in the notation of a case.
use crate::fault::CaseFault;
use crate::words::Words;
use std::fmt;
use uda_packet::{Command, End, EndBody, Kind, Op, Reply, ReplyBody};

// The parameters of a command.
#[derive(Clone, Copy)]
enum Name {
    Status,
    Controller,
    Available,
    Online,
    Access,
    Erase,
    Read,
    Write,
}

const NAMES: [(&str, Name); 8] = [
    ("status", Name::Status),
    ("controller", Name::Controller),
    ("available", Name::Available),
    ("online", Name::Online),
    ("access", Name::Access),
    ("erase", Name::Erase),
    ("read", Name::Read),
    ("write", Name::Write),
];

fn parse_name(word: &str) -> Option<Name> {
    for &(text, name) in &NAMES {
        if text == word {
            return Some(name);
        }
    }
    None
}

/// Takes a command: its name, its unit, and its parameters. `read 0 5 512 1000` reads 512 bytes from block 5
/// on to the address 0x1000.
pub fn command(words: &mut Words<'_>, reference: u32) -> Result<Command, CaseFault> {
    let kind = "a command's name";
    let name = parse_name(words.word(kind)?).ok_or(CaseFault::Wanted(kind))?;
    let unit = words.small()?;
    let op = operation(words, name)?;
    Ok(Command {
        reference,
        unit,
        op,
    })
}

fn operation(words: &mut Words<'_>, name: Name) -> Result<Op, CaseFault> {
    match name {
        Name::Status => Ok(Op::Status),
        Name::Controller => Ok(Op::Controller),
        Name::Available => Ok(Op::Available),
        Name::Online => Ok(Op::Online {
            soft: protection(words),
        }),
        _ => transfer(words, name),
    }
}

// Returns the software write protection that an Online asks for.
fn protection(words: &mut Words<'_>) -> Option<bool> {
    if words.takes("protect") {
        Some(true)
    } else if words.takes("unprotect") {
        Some(false)
    } else {
        None
    }
}

fn transfer(words: &mut Words<'_>, name: Name) -> Result<Op, CaseFault> {
    let lbn = words.number()?;
    let bytes = words.number()?;
    match name {
        Name::Access => Ok(Op::Access { bytes, lbn }),
        Name::Erase => Ok(Op::Erase { bytes, lbn }),
        Name::Read => Ok(Op::Read {
            bytes,
            address: words.address()?,
            lbn,
        }),
        _ => Ok(Op::Write {
            bytes,
            address: words.address()?,
            lbn,
        }),
    }
}

/// The outcome of an end message: the status and its numbers, as `0000 512`.
#[derive(Drop)]
pub struct StatusAndNumbers(pub End);

impl fmt::Display for StatusAndNumbers {
    fn fmt<W: fmt::Write>(&self, f: &mut fmt::Formatter<W>) -> fmt::Result {
        let End { status, body, .. } = self.0;
        match body {
            EndBody::Status { flags } => write!(f, "{status:04x} {flags:04x}"),
            EndBody::Online { flags, size } => write!(f, "{status:04x} {flags:04x} {size}"),
            EndBody::Moved { bytes, .. } => write!(f, "{status:04x} {bytes}"),
            _ => write!(f, "{status:04x}"),
        }
    }
}

/// A complete end message: its reference, its command's name, its unit and its outcome.
#[derive(Drop)]
pub struct EndMessageLine(pub End);

impl fmt::Display for EndMessageLine {
    fn fmt<W: fmt::Write>(&self, f: &mut fmt::Formatter<W>) -> fmt::Result {
        let End {
            reference,
            unit,
            body,
            ..
        } = self.0;
        let name = name_of_body(body);
        write!(f, "{reference} {name} {unit} {}", StatusAndNumbers(self.0))
    }
}

/// The same of an end message of the compatible profile.
#[derive(Drop)]
pub struct ReplyLine(pub Reply);

impl fmt::Display for ReplyLine {
    fn fmt<W: fmt::Write>(&self, f: &mut fmt::Formatter<W>) -> fmt::Result {
        let Reply {
            reference,
            unit,
            status,
            body,
        } = self.0;
        match body {
            ReplyBody::Basic(_) => write!(f, "{}", EndMessageLine(self.0.strict_end())),
            ReplyBody::Abort { named } => {
                write!(f, "{reference} abort {unit} {status:04x} {named}")
            }
            ReplyBody::CommandStatus { named, progress } => {
                write!(
                    f,
                    "{reference} progress {unit} {status:04x} {named} {progress}"
                )
            }
            ReplyBody::AccessPaths => write!(f, "{reference} paths {unit} {status:04x}"),
            ReplyBody::CompareController => {
                write!(f, "{reference} compare-controller {unit} {status:04x}")
            }
            ReplyBody::Flush => write!(f, "{reference} flush {unit} {status:04x}"),
            ReplyBody::SetUnit { flags, size } => {
                write!(
                    f,
                    "{reference} set-unit {unit} {status:04x} {flags:04x} {size}"
                )
            }
            ReplyBody::Compare { bytes } => {
                write!(f, "{reference} compare {unit} {status:04x} {bytes}")
            }
        }
    }
}

fn name_of_body(body: EndBody) -> &'static str {
    match body {
        EndBody::Invalid => "invalid",
        EndBody::Status { .. } => "status",
        EndBody::Controller => "controller",
        EndBody::Available => "available",
        EndBody::Online { .. } => "online",
        EndBody::Moved { kind, .. } => match kind {
            Kind::Access => "access",
            Kind::Erase => "erase",
            Kind::Read => "read",
            Kind::Write => "write",
        },
    }
}

/// Returns whether an end message belongs to this command, by its reference, its unit and its name.
pub fn is_end_of(end: &End, command: &Command) -> bool {
    end.reference == command.reference
        && end.unit == command.unit
        && end.body.code() == command.op.opcode() | 0x80
}
