//! Scenarios: cases for a port, an executor or a ring. Each is a file of lines that are executed one by one.
//!
//! Without arguments the program reads one case from standard input; otherwise each argument names a case's
//! file. For each line whose values differ from the expected ones it prints a line, and one more at the end
//! of each case. The exit status is 1 if any line differed or any case couldn't be read. docs/SCENARIOS.md
//! describes the language.
#![tactic(auto)]

mod case;
mod disk;
mod drives;
mod fault;
mod hold;
mod host;
mod machine;
mod memory;
mod op;
mod place;
mod random;
mod run;
mod saved;
mod sight;
mod step;
mod words;

use std::process::ExitCode;
use std::{env, fs, io};

fn main(rt: HostRuntime) -> ExitCode {
    match run_all(&rt) {
        Ok(true) => ExitCode::SUCCESS,
        Ok(false) => ExitCode::FAILURE,
        Err(error) => {
            let _ = eprintln!(rt; "{error}");
            ExitCode::FAILURE
        }
    }
}

// Executes each case that the arguments name, or one from standard input. Returns whether all values were as
// expected.
fn run_all(rt: &HostRuntime) -> io::Result<bool> {
    let names: Vec<String> = env::args(rt)?.skip(1).collect(rt.alloc())?;
    if names.is_empty() {
        let case = io::read_to_string(rt.alloc(), rt.stdin())?;
        return run_case(rt, "case", &case);
    }
    let mut all = true;
    for name in &names {
        match fs::read_to_string(rt, name.as_str()) {
            Ok(case) => all &= run_case(rt, name, &case)?,
            Err(error) => {
                println!(rt; "{name}: {error}")?;
                all = false;
            }
        }
    }
    Ok(all)
}

fn run_case(rt: &HostRuntime, name: &str, case: &str) -> io::Result<bool> {
    match case::carry_out(rt.alloc(), name, case) {
        Ok((text, as_expected)) => {
            print!(rt; "{text}")?;
            Ok(as_expected)
        }
        Err(fault) => {
            println!(rt; "{name}: {fault}")?;
            Ok(false)
        }
    }
}
