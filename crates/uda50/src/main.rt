// The program `uda50`: passes the arguments to the library of its verbs.
#![tactic(auto)]

use std::process::ExitCode;
use std::{env, io};
use uda50_verbs::{program, unreadable_arguments};

fn main(rt: HostRuntime) -> ExitCode {
    ExitCode::from(match run_program(&rt) {
        Ok(status) => status,
        Err(error) => unreadable_arguments(&rt, &error),
    })
}

// Runs the program on its arguments.
fn run_program(rt: &HostRuntime) -> io::Result<u8> {
    let owned: Vec<String> = env::args(rt)?.collect(rt.alloc())?;
    let arguments: Vec<&str> = owned
        .iter()
        .map(|argument| argument.as_str())
        .collect(rt.alloc())?;
    Ok(program(rt, arguments.as_slice()))
}
