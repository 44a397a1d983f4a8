// Reads records from standard input like the replay, and writes behind the line of each accepted act three lines
// on the world after it: the words, the queues and the holds, as `oracle --worlds` does (oracle/README.md).
#![tactic(auto)]

mod changed;
mod holds;
mod label;
mod queues;
mod record;

use acts::Fields;
use calls::Event;
use changed::Changed;
use holds::Holds;
use queues::Queues;
use replay_log::{RECORD, Refusal};
use std::fmt;
use std::io::{self, Cursor, ErrorKind, Read, Write};
use tally::Tally;
use world::World;

// The bytes of the buffer in which the lines are laid.
const LAID: usize = 65536;

// More bytes than a record's lines have: a name and eight digits for each of 52 words, a name and a number for
// each of 32 sleepers, a number and a count for each of 32 readers of 4 locks.
const LINES: usize = 4096;

// Why a run ends.
#[derive(Clone, Copy)]
enum End {
    // at the end of the input
    Whole,
    Refused(Refusal),
    Unreadable,
}

// The three lines on the world after an act.
#[derive(Clone, Copy)]
struct After<'a>(&'a World);

impl fmt::Display for After<'_> {
    fn fmt<W: fmt::Write>(&self, f: &mut fmt::Formatter<W>) -> fmt::Result {
        let world = self.0;
        writeln!(f, "  words{}", Changed(&world.words))?;
        writeln!(f, "  queues{}", Queues(world))?;
        writeln!(f, "  holds{}", Holds(world))
    }
}

// How far the records are told.
#[derive(Drop)]
struct Run {
    world: World,
    tally: Tally,
    // of the next record
    number: u32,
    // what is not yet written
    laid: Cursor<[u8; LAID]>,
}

impl Run {
    fn new() -> Run {
        Run {
            world: world::fresh(),
            tally: Tally::nothing(),
            number: 0,
            laid: Cursor::new([0; LAID]),
        }
    }

    // Does an act, and tells it: its line, and those on the world after it where it was accepted.
    fn act(&mut self, fields: Fields) {
        let grant = tally::grants(self.world.thread(fields.thread).at);
        let acted = acts::act(self.world, fields);
        self.world = acted.world;
        self.tell(acted.event, grant);
        if !matches!(acted.event, Event::Refused { .. }) {
            let _ = write!(self.laid, "{}", After(&self.world));
        }
        self.number = self.number.saturating_add(1);
    }

    // Lays an event's line, and counts it; `grant`: whether its call takes a lock.
    fn tell(&mut self, event: Event, grant: bool) {
        let at = self.laid.position() as usize;
        let end = lines::put_line(self.laid.get_mut(), at, self.number, event);
        self.laid.set_position(end as u64);
        self.tally.add(event, grant);
    }

    fn tell_tally(&mut self) {
        let at = self.laid.position() as usize;
        let end = lines::put_tally(self.laid.get_mut(), at, self.tally);
        self.laid.set_position(end as u64);
    }

    // Whether there is room for one more record's lines.
    fn has_room(&self) -> bool {
        self.laid.position() <= (LAID - LINES) as u64
    }

    // Writes what is laid, and says so where that cannot be done.
    fn write_out(&mut self, rt: &(impl Print + Eprint)) -> io::Result<()> {
        let end = self.laid.position() as usize;
        self.laid.set_position(0);
        let written = rt.write_all(self.laid.get_ref().get(..end).unwrap_or_default());
        if written.is_err() {
            say(rt, "the lines cannot be written");
        }
        written
    }

    // Reads the next record, and answers its fields.
    fn next(&self, input: &mut impl Read) -> Result<Fields, End> {
        let mut record = [0; RECORD];
        let count = read_full(input, &mut record);
        if count < RECORD && input.bytes().next().is_some() {
            return Err(End::Unreadable);
        }
        if count == 0 {
            return Err(End::Whole);
        }
        if let Some(refusal) = replay_log::finish(self.number, count) {
            return Err(End::Refused(refusal));
        }
        record::fields(&record).ok_or(End::Refused(Refusal::BadMark))
    }
}

// Reads until the buffer is full, the input ends or a read fails, and answers how many bytes were read.
fn read_full(input: &mut impl Read, buf: &mut [u8]) -> usize {
    let mut count: usize = 0;
    for _ in 0..u64::MAX {
        let rest = buf.get_mut(count..).unwrap_or_default();
        if rest.is_empty() {
            break;
        }
        match input.read(rest) {
            Ok(0) => break,
            Ok(n) => count = count.saturating_add(n),
            Err(error) if error.kind() == ErrorKind::Interrupted => {}
            Err(_) => break,
        }
    }
    count
}

// Where not even standard error can be written, nothing is said.
fn say(rt: &impl Eprint, what: &str) {
    let _ = eprintln!(rt; "worlds: {what}");
}

// Does the records up to the end, and answers how they end. A write that fails ends the run.
fn do_records(rt: &(impl Print + Eprint), input: &mut impl Read, run: &mut Run) -> io::Result<End> {
    for _ in 0..u64::MAX {
        match run.next(input) {
            Ok(fields) => run.act(fields),
            Err(end) => return Ok(end),
        }
        if !run.has_room() {
            run.write_out(rt)?;
        }
    }
    Ok(End::Whole)
}

fn replay(rt: &(impl Print + Eprint), input: &mut impl Read) -> io::Result<()> {
    let mut run = Run::new();
    match do_records(rt, input, &mut run)? {
        End::Whole => {}
        End::Refused(refusal) => {
            let number = refusal.number();
            run.tell(Event::Refused { number }, false);
        }
        End::Unreadable => {
            let written = run.write_out(rt);
            say(rt, "the records cannot be read");
            return written;
        }
    }
    run.tell_tally();
    run.write_out(rt)
}

fn main(rt: HostRuntime) {
    let _ = replay(&rt, &mut rt.reader());
}
