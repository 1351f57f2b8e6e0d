//! The program `gjcut`: the words after its name, standard input and standard output, handed to the
//! call that has a theorem for each command.
#![tactic(auto)]

use gj_commands::run_command;
use gj_port::{StdSink, StdSource};
use std::io::ErrorKind;
use std::process::ExitCode;
use std::rt::Env;
use std::{env, io};

/// How the program ends if the system has no memory for the list of words.
const NO_MEMORY_FOR_WORDS: u8 = 6;

/// How the program ends if the system refuses the list of words otherwise. No status of a run has
/// this code.
const NO_WORDS: u8 = 13;

fn main(rt: HostRuntime) -> ExitCode {
    ExitCode::from(match words(&rt) {
        Ok(words) => {
            let mut source = StdSource::new(rt.stdin());
            let mut sink = StdSink::new(rt.stdout());
            run_command(rt.alloc(), words.as_slice(), &mut source, &mut sink).code()
        }
        Err(error) if error.kind() == ErrorKind::OutOfMemory => NO_MEMORY_FOR_WORDS,
        Err(_) => NO_WORDS,
    })
}

/// The words after the program's name.
fn words(rt: &(impl Env + AllocGlobal)) -> io::Result<Vec<String>> {
    let words = env::args(rt)?.skip(1).collect(rt.alloc())?;
    Ok(words)
}
