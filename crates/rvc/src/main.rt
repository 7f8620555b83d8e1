//! `rvc WORDS..`: makes a source of the file that the second word names, one of standard input and
//! a sink of standard output, does what the words ask, and ends with the number of the status as
//! its exit status.
//!
//! - `source`: a file and standard input as sources.
//! - `sink`: standard output as a sink.
//! - `reading`: what both sources keep of their reads.
//! - `errors`: the count of faults, and of calls without memory.
//! - `exit`: the exit status of a status.
#![tactic(auto)]

mod errors;
mod exit;
mod reading;
mod sink;
mod source;

use exit::exit_code;
use rv_base::NoMemory;
use rvc_top::{Status, rvc};
use sink::StdoutSink;
use source::{FileSource, StdinSource};
use std::env;
use std::io::ErrorKind;
use std::process::ExitCode;

fn main(rt: HostRuntime) -> ExitCode {
    exit_code(run(&rt))
}

fn run(rt: &HostRuntime) -> Status {
    let words = match words_given(rt) {
        Ok(words) => words,
        Err(NoMemory) => return Status::NoMemory,
    };
    let path = match words.get(1) {
        Some(word) => word.as_str(),
        None => "",
    };
    let mut file = FileSource::new(rt, path);
    let mut schedule = StdinSource::new(rt);
    let mut out = StdoutSink::new(rt);
    rvc(rt.alloc(), &words, &mut file, &mut schedule, &mut out)
}

// The words after the program's name. Where one of them is no text, the words have no form, as
// where there is none.
fn words_given(rt: &HostRuntime) -> Result<Vec<String>, NoMemory> {
    let mut words = Vec::new(rt.alloc());
    match env::args(rt) {
        Ok(arguments) => {
            for word in arguments.skip(1) {
                words.push(word)?;
            }
            Ok(words)
        }
        Err(error) if error.kind() == ErrorKind::OutOfMemory => Err(NoMemory),
        Err(_) => Ok(words),
    }
}

#[cfg(test)]
mod tests;
