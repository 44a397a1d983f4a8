// Replays the files of records that its arguments name, one after the other: a line with the file's name, then
// its lines and its tally. What it must write of the stored files was worked out by hand or is what the Rust
// itself did (oracle/README.md).
#![tactic(auto)]

use std::env::FillError;
use std::rt::{Env, Files};
use std::{fs, io, str};

// A path of so many bytes or more cannot be opened.
const PATH: usize = 4096;

// Where standard error takes no words, there is nobody to tell.
fn say(rt: &impl Eprint, words: &str) {
    let _ = rt.eprintln(words);
}

// Replays an open file, behind a line with its name.
fn replay_open<R: Print + Eprint, F: io::Read>(rt: &R, file: &mut F, name: &str) {
    match println!(rt; "{name}:") {
        Ok(()) => replay_io::replay(rt, file, &mut io::writer(rt)),
        Err(_) => say(rt, "transcripts: the name of a file cannot be written"),
    }
}

fn replay_file<R: Files + Print + Eprint>(rt: &R, name: &str) {
    match fs::open(rt, name) {
        Ok(mut file) => replay_open(rt, &mut file, name),
        Err(error) => {
            let _ = eprintln!(rt; "{name}: {error}");
        }
    }
}

// Replays the file that an argument names, and tells whether there is such an argument.
fn replay_argument<R: Env + Files + Print + Eprint>(rt: &R, place: usize) -> bool {
    let mut name = [0u8; PATH];
    match rt.arg(place, &mut name) {
        Ok(length) => match str::from_utf8(&name[..length]) {
            Ok(name) => replay_file(rt, name),
            Err(_) => say(rt, "transcripts: the name of a file: Not UTF-8"),
        },
        Err(FillError::TooLong) => say(rt, "transcripts: the name of a file: File name too long"),
        Err(FillError::NotPresent) => return false,
    }
    true
}

fn main(rt: HostRuntime) {
    for place in 1..usize::MAX {
        if !replay_argument(&rt, place) {
            break;
        }
    }
}
