//! The program `faceplace`: `seed IN OUT` writes the first-fit placement of a contest input, `place IN OUT CERT [N]` writes the best of the
//! trials that follow it with a certificate of them, `score IN OUT` judges and scores an output file, and `check IN OUT CERT` checks one by a
//! certificate. `gen NUMBER CELLS OUT [PERCENT]` writes an input that a number makes, and `demo NUMBER CELLS OUT CERT [PERCENT]` places one.
#![tactic(auto)]

mod check;
mod demo;
mod generate;
mod input;
mod place;
mod refusal;
mod report;
mod request;
mod run;
mod score;
mod seed;
mod status;
mod trials;

use fp_base::{DirFolder, StdoutSink};
pub use run::run;
use std::fs::File;
use std::os::fd::AsRawFd;
use std::process::ExitCode;
use std::{env, io};

/// The status where a closed standard stream cannot be held.
const NO_STREAMS: u8 = 6;

/// The status where the runtime cannot give the words.
const NO_WORDS: u8 = 7;

/// The number of standard error, the greatest of the standard streams'.
const STDERR_NUMBER: i32 = 2;

/// The words after the program's name.
fn words_of(rt: &HostRuntime) -> io::Result<Vec<String>> {
    Ok(env::args(rt)?.skip(1).collect(rt.alloc())?)
}

/// Holds the numbers of the standard streams that are closed, so that no file of the run gets one: a file that is opened gets the least number
/// that is free, and the root folder can be opened for reading alone.
fn hold_streams(rt: &HostRuntime) -> io::Result<[Option<File>; 3]> {
    let mut held = [None, None, None];
    for place in &mut held {
        let file = File::open(rt, "/")?;
        if file.as_raw_fd() > STDERR_NUMBER {
            break;
        }
        *place = Some(file);
    }
    Ok(held)
}

/// Does what the words ask for over real files and standard output, and ends with the status.
fn main(rt: HostRuntime) -> ExitCode {
    let words = match words_of(&rt) {
        Ok(words) => words,
        Err(error) if error.kind() == io::ErrorKind::OutOfMemory => return ExitCode::from(1),
        Err(_) => return ExitCode::from(NO_WORDS),
    };
    let Ok(_held) = hold_streams(&rt) else {
        return ExitCode::from(NO_STREAMS);
    };
    let Ok(mut folder) = DirFolder::new(&rt, rt.alloc()) else {
        return ExitCode::from(1);
    };
    let mut out = StdoutSink::new(&rt);
    ExitCode::from(run(rt.alloc(), words.as_slice(), &mut folder, &mut out))
}

#[cfg(test)]
mod fixtures;
#[cfg(test)]
mod tests;
#[cfg(test)]
mod tests_of_check;
#[cfg(test)]
mod tests_of_devices;
#[cfg(test)]
mod tests_of_gen;
#[cfg(test)]
mod tests_of_place;
