// Runs the library where no file of records comes to: the last numbers, a buffer without room, a start past
// the end, a world whose parts disagree, and counts at their largest. The stored output was worked out by
// hand from document 01.
#![tactic(auto)]

use replay_log::{Ran, State, Stop};
use std::{fmt, io};
use tally::Tally;

// More bytes than any run here writes.
const BUFFER: usize = 4096;

// Document 01's example: thread 0 locks mutex 0, and thread 1 tries to.
const EXAMPLE: &[u8; 40] = b"\
    \xB1k\x01\x00\x00\x00\x00\x00\x00\x00\
    \xB1k\x02\x00\x00\x00\x00\x00\x00\x00\
    \xB1k\x01\x01\x01\x00\x00\x00\x00\x00\
    \xB1k\x02\x00\x01\x00\x00\x00\x00\x00\
";

// How the example is run.
#[derive(Clone, Copy)]
struct Run {
    state: State,
    // where in the example's bytes it starts
    from: usize,
    // for how many bytes of lines there is room
    room: usize,
}

// A fresh world, with nothing counted.
fn start() -> State {
    State {
        world: world::fresh(),
        tally: Tally::nothing(),
        number: 0,
    }
}

// From its start, and from the start of all.
fn example() -> Run {
    Run {
        state: start(),
        from: 0,
        room: BUFFER,
    }
}

// Why a run stopped, in words.
#[derive(Clone, Copy)]
struct Told(Stop);

impl fmt::Display for Told {
    fn fmt<W: fmt::Write>(&self, f: &mut fmt::Formatter<W>) -> fmt::Result {
        match self.0 {
            Stop::Short => write!(f, "short"),
            Stop::Room => write!(f, "no room"),
            Stop::Ended { number } => write!(f, "ended by {number}"),
        }
    }
}

// Where lines are laid, and where they are printed.
#[derive(Drop)]
struct Page<'a, P> {
    rt: &'a P,
    out: [u8; BUFFER],
}

impl<P: Print> Page<'_, P> {
    // The lines that are laid, up to their end.
    fn print(&self, end: usize) -> io::Result<()> {
        let count = replay_log::within(end, &self.out);
        self.rt.write_all(&self.out[..count])
    }

    fn run(&mut self, run: Run) -> Ran {
        let room = replay_log::within(run.room, &self.out);
        let out = &mut self.out[..room];
        replay_log::run_from(run.state, EXAMPLE, run.from, out)
    }

    // The lines of a run and what it reached.
    fn tell(&mut self, run: Run) -> io::Result<Ran> {
        let ran = self.run(run);
        self.print(ran.count)?;
        println!(self.rt;
            "next {}, used {}, wrote {}, {}",
            ran.state.number,
            ran.used,
            ran.count,
            Told(ran.stop)
        )?;
        Ok(ran)
    }

    // The tally's line.
    fn tell_tally(&mut self, tally: Tally) -> io::Result<()> {
        let end = lines::put_tally(&mut self.out, 0, tally);
        self.print(end)
    }

    // The end of a log, with so many bytes left.
    fn tell_finish(&mut self, number: u32, left: usize) -> io::Result<()> {
        let finished = replay_log::put_finish(Tally::nothing(), number, left, &mut self.out);
        self.print(finished.count)?;
        self.tell_tally(finished.tally)
    }
}

fn main(rt: HostRuntime) -> io::Result<()> {
    let out = [0; BUFFER];
    let mut page = Page { rt: &rt, out };
    for number in [4294967291, 4294967293, 4294967295] {
        println!(rt; "first number {number}")?;
        let state = State { number, ..start() };
        let ran = page.tell(Run { state, ..example() })?;
        page.tell_tally(ran.state.tally)?;
    }
    println!(rt; "0 bytes left behind the last number")?;
    page.tell_finish(4294967295, 0)?;
    println!(rt; "1 byte left behind the last number")?;
    page.tell_finish(4294967295, 1)?;
    println!(rt; "9 bytes left")?;
    page.tell_finish(7, 9)?;
    for room in [0, 11, 12, 46] {
        println!(rt; "room for {room} bytes")?;
        page.tell(Run { room, ..example() })?;
    }
    let end = EXAMPLE.len();
    for from in [end / 2, end, end + 1] {
        println!(rt; "start at {from}")?;
        page.tell(Run { from, ..example() })?;
    }
    println!(rt; "a world whose parts disagree")?;
    let mut state = start();
    state.world.words[0] = 3;
    let ran = page.tell(Run { state, ..example() })?;
    page.tell_tally(ran.state.tally)?;
    println!(rt; "counts near their largest")?;
    let mut tally = Tally {
        grants: u64::MAX - 1,
        sleeps: u64::MAX - 1,
        wakes: u64::MAX - 1,
        panics: u64::MAX - 1,
        refused: u64::MAX - 1,
    };
    for _ in 0..2 {
        let state = State { tally, ..start() };
        tally = page.run(Run { state, ..example() }).state.tally;
        page.tell_tally(tally)?;
    }
    Ok(())
}
