// The program `uda`: passes the arguments and the standard streams to the library.
#![tactic(auto)]

use std::process::ExitCode;
use std::{env, io};
use uda_script::{program, report_unreadable_arguments};

fn main(rt: HostRuntime) -> ExitCode {
    ExitCode::from(match run_program(&rt) {
        Ok(status) => status,
        Err(error) => report_unreadable_arguments(&error, rt.stderr()),
    })
}

// Runs the program on the arguments after its name.
fn run_program(rt: &HostRuntime) -> io::Result<u8> {
    let owned: Vec<String> = env::args(rt)?.skip(1).collect(rt.alloc())?;
    let words: Vec<&str> = owned.iter().map(|word| word.as_str()).collect(rt.alloc())?;
    Ok(program(rt, words.as_slice(), rt.stdin(), rt.stdout(), rt.stderr()))
}
