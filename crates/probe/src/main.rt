// Reads cases from standard input, each a world and what is to be done to it, and writes a line for each.
// docs/PROBE.md has the layout and the lines.
#![tactic(auto)]

mod bytes;
mod case;
mod record;
mod report;

use case::CASE;
use report::{LINE, Line};
use std::io::{self, Cursor, ErrorKind, Read, Write};

// The bytes of the buffer in which the lines are laid.
const LAID: usize = 65536;

// What is laid in the buffer and not yet written.
#[derive(Drop)]
struct Lines {
    laid: Cursor<[u8; LAID]>,
}

impl Lines {
    fn new() -> Lines {
        Lines {
            laid: Cursor::new([0; LAID]),
        }
    }

    // Whether there is room for one more line.
    fn have_room(&self) -> bool {
        self.laid.position() <= (LAID - LINE) as u64
    }

    // Writes what is laid, and says so where that cannot be done.
    fn write_out(&mut self, rt: &(impl Print + Eprint)) -> io::Result<()> {
        let end = self.laid.position() as usize;
        self.laid.set_position(0);
        let written = rt.write_all(self.laid.get_ref().get(..end).unwrap_or_default());
        if written.is_err() {
            say(rt, "standard output could not be written");
        }
        written
    }
}

// Where not even standard error can be written, nothing is said.
fn say(rt: &impl Eprint, what: &str) {
    let _ = eprintln!(rt; "probe: {what}");
}

// Reads until the buffer is full, the input ends or a read fails, and answers how many bytes were read.
fn read_full(input: &mut impl Read, buf: &mut [u8]) -> usize {
    let mut count: usize = 0;
    for _ in 0..u64::MAX {
        let rest = buf.get_mut(count..).unwrap_or_default();
        if rest.is_empty() {
            break;
        }
        match input.read(rest) {
            Ok(0) => break,
            Ok(n) => count = count.saturating_add(n),
            Err(error) if error.kind() == ErrorKind::Interrupted => {}
            Err(_) => break,
        }
    }
    count
}

// Lays and writes the line of each whole case, and answers how many bytes stand behind the last.
fn tell_cases(
    rt: &(impl Print + Eprint),
    input: &mut impl Read,
    lines: &mut Lines,
) -> io::Result<usize> {
    let mut case = [0; CASE];
    for _ in 0..u64::MAX {
        let count = read_full(input, &mut case);
        if count < CASE {
            return Ok(count);
        }
        let _ = writeln!(lines.laid, "{}", Line(&case));
        if !lines.have_room() {
            lines.write_out(rt)?;
        }
    }
    Ok(0)
}

// A write that fails ends the run.
fn run(rt: &(impl Print + Eprint), input: &mut impl Read) -> io::Result<()> {
    let mut lines = Lines::new();
    let count = tell_cases(rt, input, &mut lines)?;
    if count > 0 {
        let _ = writeln!(lines.laid, "short {count} bytes");
    }
    let written = lines.write_out(rt);
    let behind = input.bytes().next();
    if behind.is_some() {
        say(rt, "standard input could not be read");
    }
    written
}

fn main(rt: HostRuntime) {
    let _ = run(&rt, &mut rt.reader());
}
