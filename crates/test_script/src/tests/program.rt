//! The program by its arguments, over streams that fail.
use super::streams::{Manner, Sink, Source};
use std::alloc::{AllocError, Global};
use std::path::PathBuf;
use std::test::Fail;
use std::{env, fs, io, process};
use uda_script::{program, report_unreadable_arguments};

/// The arguments of the program.
#[derive(Clone, Copy)]
enum Words {
    /// Only this argument.
    One(&'static str),
    /// The run of this script over an image of these blocks, each filled with one byte.
    Run(&'static str, &'static [u8]),
}

/// A run of the program, its streams, and its result. Its data is all of 0x42.
#[derive(Clone, Copy)]
struct Case {
    words: Words,
    input: Manner,
    out: Manner,
    report: Manner,
    status: u8,
    /// The number of bytes that are written, if it is compared.
    written: Option<usize>,
    /// The report, if it is compared.
    reported: Option<&'static str>,
    /// The image's blocks afterwards.
    left: &'static [u8],
}

const PROBE: Case = Case {
    words: Words::One("probe"),
    input: Manner::Whole,
    out: Manner::Whole,
    report: Manner::Whole,
    status: 1,
    written: None,
    reported: Some("uda: write failed\n"),
    left: &[],
};

const READ: Case = Case {
    words: Words::Run("online 0\nread 0 0 1\n", &[0]),
    left: &[0],
    ..PROBE
};

static CASES: [Case; 15] = [
    // a full device is reported once
    Case {
        out: Manner::Room(0),
        ..PROBE
    },
    Case {
        out: Manner::Room(1),
        ..PROBE
    },
    Case {
        out: Manner::Room(100),
        ..PROBE
    },
    Case {
        out: Manner::Room(143),
        ..PROBE
    },
    Case {
        out: Manner::Room(144),
        status: 0,
        written: Some(144),
        reported: Some(""),
        ..PROBE
    },
    Case {
        out: Manner::Room(0),
        ..READ
    },
    Case {
        out: Manner::Room(1),
        ..READ
    },
    Case {
        out: Manner::Room(511),
        ..READ
    },
    Case {
        out: Manner::Room(512),
        status: 0,
        written: Some(512),
        reported: Some("1 0000 0000 1\n2 0000 512\n"),
        ..READ
    },
    // what can't be flushed isn't written
    Case {
        out: Manner::Stuck,
        ..PROBE
    },
    // a fault that can't be reported keeps its status
    Case {
        words: Words::One("prob"),
        report: Manner::Room(0),
        status: 2,
        reported: None,
        ..PROBE
    },
    // a report that is full
    Case {
        report: Manner::Room(5),
        written: Some(512),
        reported: None,
        ..READ
    },
    // nothing that was buffered before a write failed is written after it
    Case {
        out: Manner::Recovering,
        written: Some(0),
        ..READ
    },
    Case {
        report: Manner::Recovering,
        ..READ
    },
    // a byte at a time
    Case {
        words: Words::Run("online 0\nwrite 0 1 2\nread 0 2 1\n", &[0; 4]),
        input: Manner::Single,
        out: Manner::Single,
        report: Manner::Single,
        status: 0,
        written: Some(512),
        reported: Some("1 0000 0000 4\n2 0000 1024\n3 0000 512\n"),
        left: &[0, 0x42, 0x42, 0],
    },
];

// Returns a path that only this process uses, ending in a word.
fn path_of(rt: &HostRuntime, word: &str) -> io::Result<PathBuf> {
    let name = format!(in rt.alloc(); "uda-script-{}-{word}", process::id(rt.process()))?;
    Ok(env::temp_dir(rt)?.join(rt.alloc(), name.as_str())?)
}

// Makes a file with these bytes, and returns its path.
fn file_of(rt: &HostRuntime, word: &str, bytes: &[u8]) -> io::Result<PathBuf> {
    let path = path_of(rt, word)?;
    fs::write(rt, path.as_path(), bytes)?;
    Ok(path)
}

// Returns the bytes of a file, and removes it.
fn take_file(rt: &HostRuntime, path: &PathBuf) -> io::Result<Vec<u8>> {
    let bytes = fs::read(rt, path.as_path())?;
    fs::remove_file(rt, path.as_path())?;
    Ok(bytes)
}

// Returns the bytes of blocks, each filled with one byte.
fn bytes_of(alloc: Global, blocks: &[u8]) -> Result<Vec<u8>, AllocError> {
    let mut bytes = Vec::new(alloc);
    for byte in blocks {
        bytes.extend_from_slice(&[*byte; 512])?;
    }
    Ok(bytes)
}

// The result of a run: its status, and the image's bytes afterwards.
#[derive(Drop)]
struct Outcome {
    status: u8,
    left: Vec<u8>,
}

// Removes the files of a run of this status, and returns its result.
fn take_files(
    rt: &HostRuntime,
    status: u8,
    script: &PathBuf,
    image: &PathBuf,
) -> io::Result<Outcome> {
    take_file(rt, script)?;
    let left = take_file(rt, image)?;
    Ok(Outcome { status, left })
}

impl Case {
    // Runs the program.
    fn run(&self, rt: &HostRuntime, out: &mut Sink, report: &mut Sink) -> Result<Outcome, Fail> {
        let input = Source::new(self.input, &[0x42; 1030]);
        match self.words {
            Words::One(word) => Ok(Outcome {
                status: program(rt, &[word], input, out, report),
                left: Vec::new(rt.alloc()),
            }),
            Words::Run(script, blocks) => {
                let script = file_of(rt, "script", script.as_bytes())?;
                let image = file_of(rt, "image", &bytes_of(rt.alloc(), blocks)?)?;
                let words = ["run", script.as_str(), image.as_str()];
                let status = program(rt, &words, input, out, report);
                Ok(take_files(rt, status, &script, &image)?)
            }
        }
    }

    // Returns whether these streams have the expected bytes.
    fn are_written(&self, out: &Sink, report: &Sink) -> bool {
        (out.was_called() || !matches!(self.out, Manner::Recovering))
            && self.written.unwrap_or(out.taken.len()) == out.taken.len()
            && match self.reported {
                Some(text) => report.taken.as_slice() == text.as_bytes(),
                None => true,
            }
    }
}

// Runs the program for a case, and returns whether its status, its streams and its image are as expected.
fn is_as_expected(rt: &HostRuntime, case: &Case) -> Result<bool, Fail> {
    let mut out = Sink::new(rt.alloc(), case.out);
    let mut report = Sink::new(rt.alloc(), case.report);
    let outcome = case.run(rt, &mut out, &mut report)?;
    let left = bytes_of(rt.alloc(), case.left)?;
    Ok(outcome.status == case.status && case.are_written(&out, &report) && outcome.left == left)
}

#[test]
fn streams_that_fail(rt: HostRuntime) -> Result<(), Fail> {
    for (n, case) in CASES.iter().enumerate() {
        assert!(rt; is_as_expected(&rt, case)?, "case {n}");
    }
    Ok(())
}

#[test]
fn unreadable_arguments_are_reported(rt: HostRuntime) -> Result<(), Fail> {
    for (kind, status, text) in [
        (io::ErrorKind::InvalidData, 2, "uda: usage\n"),
        (io::ErrorKind::OutOfMemory, 1, "uda: out of memory\n"),
    ] {
        let mut report = Vec::new(rt.alloc());
        let reported = report_unreadable_arguments(&io::Error::from(kind), &mut report);
        assert!(rt;
            reported == status && report.as_slice() == text.as_bytes(),
            "{text}"
        );
    }
    Ok(())
}
