// The replay over a reader and a writer: records are read from the one, and a line for each and the tally are
// written to the other. Where reading or writing fails it says so on standard error and ends, with no tally.
#![tactic(auto)]

ghost use Rattle.std.specs.Prelude.{◌≡◌, ◌≤◌, take, slice_range, IfOk};
ghost use Rattle.std.specs.Io.KnownBytes.{Consumes};
ghost use Rattle.replay_io.specs.Session.{RanOn};

use replay_log::{State, Stop};
use std::fmt;
use std::io::{Read, Write};
use tally::Tally;

// The bytes of a buffer: one for the records that are read, one for their lines.
const BUFFER: usize = 65536;

// So many bytes are run at a time: their 2,400 records have room for the longest lines in 64 KiB (chunk-room, crates/parts).
const CHUNK: usize = 24000;

// Why a replay ends with no tally.
#[derive(Clone, Copy)]
enum Failure {
    Read,
    Write,
    Room,
}

impl fmt::Display for Failure {
    fn fmt<W: fmt::Write>(&self, f: &mut fmt::Formatter<W>) -> fmt::Result {
        f.write_str(match self {
            Failure::Read => "the records cannot be read",
            Failure::Write => "the lines cannot be written",
            Failure::Room => "a line has no room",
        })
    }
}

// What comes after a turn that did not fail.
#[derive(Clone, Copy)]
enum Next {
    Read,
    Finish,
}

// Writes all of the lines.
fn put<W: Write>(output: &mut W, lines: &[u8]) -> Result<(), Failure> {
    output.write_all(lines).map_err(|_| Failure::Write)
}

// Where a replay stands between two reads.
#[derive(Drop)]
struct Session {
    state: State,
    // the records that are read; so many bytes at its start are of one that the input's next part goes on with
    buf: [u8; BUFFER],
    have: usize,
    // their lines
    out: [u8; BUFFER],
}

impl Session {
    // From the fresh world, with nothing read.
    fn new() -> Session
        ensures { result.have ≤ 24000 }
    {
        Session {
            state: State {
                world: world::fresh(),
                tally: Tally::nothing(),
                number: 0,
            },
            buf: [0; BUFFER],
            have: 0,
            out: [0; BUFFER],
        }
    }

    // One read behind the bytes that were carried over: how many bytes there are then. A read that a signal
    // interrupts has failed.
    fn fill<R: Read>(&mut self, input: &mut R) -> Result<usize, Failure>
        requires { self.old.have ≤ 24000 }
        ensures within { IfOk result (λ end. (self.old.have ≤ end) × (end ≤ 24000)) }
        ensures behind { IfOk result (λ end. Consumes (R.remaining input.old) (R.remaining input.new) (slice_range self.new.buf self.old.have end)) }
        ensures before { take self.old.have self.new.buf ≡ take self.old.have self.old.buf }
        ensures rest { self.new ≡ record self.old { buf = self.new.buf } }
    {
        let n = input
            .read(&mut self.buf[self.have..CHUNK])
            .map_err(|_| Failure::Read)?;
        Ok(self.have + n)
    }

    // The run over what is whole in the first `end` bytes of the buffer, and its lines written. The bytes that it
    // leaves are carried over.
    #[tactic(auto, unfolding(replay_log::specs::Run::ran_of))]
    fn run<W: Write>(&mut self, end: usize, output: &mut W) -> Result<Next, Failure>
        ensures within { IfOk result (λ next. self.new.have ≤ end) }
        ensures ran { IfOk result (λ next. RanOn self.old end next self.new) }
    {
        let ran = replay_log::feed(self.state, &mut self.buf, end, &mut self.out);
        put(output, &self.out[..ran.count])?;
        self.state = ran.state;
        match ran.stop {
            Stop::Short => {
                self.have = end - ran.used;
                Ok(Next::Read)
            }
            // a run of CHUNK bytes has room for its lines
            Stop::Room => Err(Failure::Room),
            // behind a refusal that ends the run no bytes are left
            Stop::Ended { .. } => {
                self.have = 0;
                Ok(Next::Finish)
            }
        }
    }

    // One read, and the run over what there is then; without new bytes the replay is at its end.
    fn turn<R: Read, W: Write>(&mut self, input: &mut R, output: &mut W) -> Result<Next, Failure>
        requires { self.old.have ≤ 24000 }
        ensures { IfOk result (λ next. self.new.have ≤ 24000) }
    {
        let end = self.fill(input)?;
        if end == self.have {
            return Ok(Next::Finish);
        }
        self.run(end, output)
    }

    // The last lines: a refusal for bytes that are left, and the tally.
    fn finish<W: Write>(&mut self, output: &mut W) -> Result<(), Failure> {
        let State { tally, number, .. } = self.state;
        let finished = replay_log::put_finish(tally, number, self.have, &mut self.out);
        let end = lines::put_tally(&mut self.out, finished.count, finished.tally);
        let count = replay_log::within(end, &self.out);
        put(output, &self.out[..count])
    }
}

// Turn after turn from the fresh world, and the last lines.
fn take_turns<R: Read, W: Write>(input: &mut R, output: &mut W) -> Result<(), Failure> {
    let mut session = Session::new();
    for _ in 0..u64::MAX {
        if let Next::Finish = session.turn(input, output)? {
            return session.finish(output);
        }
    }
    Ok(())
}

// Replays the records that a reader gives into a writer.
pub fn replay<R: Read, W: Write>(rt: &impl Eprint, input: &mut R, output: &mut W) {
    if let Err(failure) = take_turns(input, output) {
        // Where standard error takes no words either, there is nobody to tell.
        let _ = eprintln!(rt; "replay: {failure}");
    }
}
