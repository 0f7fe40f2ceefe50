//! The program: it makes the words, standard input and standard output, does the call, and ends with its status.
#![tactic(auto)]

use gl_app::{Text, plain};
use gl_outside::{ReadSource, WriteSink};
use gl_value::TextFault;
use std::alloc::AllocError;
use std::process::ExitCode;
use std::rt::Env;
use std::{env, io};

/// Why there are no words.
enum WordsFault {
    /// The system doesn't give them.
    NotGiven,
    /// One of them is no UTF-8.
    NotText,
    Memory,
}

impl From<AllocError> for WordsFault {
    fn from(_e: AllocError) -> WordsFault {
        WordsFault::Memory
    }
}

impl From<io::Error> for WordsFault {
    fn from(e: io::Error) -> WordsFault {
        match e.kind() {
            io::ErrorKind::OutOfMemory => WordsFault::Memory,
            io::ErrorKind::InvalidData => WordsFault::NotText,
            _ => WordsFault::NotGiven,
        }
    }
}

impl From<TextFault> for WordsFault {
    fn from(e: TextFault) -> WordsFault {
        match e {
            TextFault::NotUtf8 { .. } => WordsFault::NotText,
            TextFault::Memory => WordsFault::Memory,
        }
    }
}

// The status of a process to which the system doesn't give its words.
const NOT_GIVEN: u8 = 10;

// And of one that finds no memory for them.
const NO_MEMORY: u8 = 6;

fn main(rt: HostRuntime) -> ExitCode {
    ExitCode::from(run(&rt))
}

fn run(rt: &(impl Env + Input + Print + AllocGlobal)) -> u8 {
    let words = match words(rt) {
        Ok(words) => words,
        // Words that are no text have no form.
        Err(WordsFault::NotText) => Vec::new(rt.alloc()),
        Err(WordsFault::NotGiven) => return NOT_GIVEN,
        Err(WordsFault::Memory) => return NO_MEMORY,
    };
    let mut source = ReadSource::new(rt.reader());
    let mut sink = WriteSink::new(io::writer(rt));
    plain(rt.alloc(), words.as_slice(), &mut source, &mut sink).code()
}

// The words after the program's name.
fn words(rt: &(impl Env + AllocGlobal)) -> Result<Vec<Text>, WordsFault> {
    let mut words = Vec::new(rt.alloc());
    for argument in env::args(rt)?.skip(1) {
        let word = Text::from_utf8(rt.alloc(), argument.as_bytes())?;
        words.push(word).map_err(AllocError::from)?;
    }
    Ok(words)
}
