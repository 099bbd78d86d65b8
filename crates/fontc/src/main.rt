//! The font compiler fontc, over the real files and the real console.
#![tactic(auto)]

use fontc_cli::{Status, run_program};
use outside_io::{OpenGate, RealConsole, RealFiles};
use std::process::ExitCode;
use std::{env, io};

fn main(rt: HostRuntime) -> ExitCode {
    match words(&rt) {
        Ok(words) => run_words(&rt, words.as_slice()),
        // A word that isn't UTF-8 is of no command: that is told as for no words.
        Err(error) if error.kind() != io::ErrorKind::OutOfMemory => run_words(&rt, &[]),
        Err(_) => Status::NoMemory.exit(),
    }
}

/// The words behind the program's name.
fn words(rt: &HostRuntime) -> io::Result<Vec<String>> {
    Ok(env::args(rt)?.skip(1).collect::<Vec<String>>(rt.alloc())?)
}

/// Runs the command that the words are.
fn run_words(rt: &HostRuntime, words: &[String]) -> ExitCode {
    match RealFiles::new(rt, rt.alloc()) {
        Ok(mut files) => {
            let mut console = RealConsole::new(rt);
            run_program(rt.alloc(), words, &mut files, &mut console, &OpenGate)
        }
        Err(_) => Status::NoMemory.exit(),
    }
}
