// The numbers of document 01 that are run: a call alone from its begin, in a world that acts lead to.
use crate::calling::Named;
use crate::lines::Answer;
use crate::records::Record;
use crate::shown::{Number, Told};
use crate::worlds::after;
use acts::Change;
use calls::{Call, Event};
use once::Ending;
use std::io;
use words::Kind;
use world::World;

// More steps than any of the calls takes.
const MOST: u32 = 200;

// The world after some steps, how many they are, and what the last of them told.
#[derive(Clone, Copy)]
struct Ran {
    world: World,
    event: Event,
    steps: u32,
}

// Steps of a thread up to the first event other than moved.
fn run(w: World, thread: u8) -> Ran {
    let mut ran = Ran {
        world: w,
        event: Event::Moved { woken: 0 },
        steps: 0,
    };
    for steps in 1..=MOST {
        let acted = acts::act(ran.world, Record::step(thread).fields());
        ran = Ran {
            world: acted.world,
            event: acted.event,
            steps,
        };
        if !matches!(ran.event, Event::Moved { .. }) {
            break;
        }
    }
    ran
}

// A world that acts change, and the kind of word that is shown of object 0.
#[derive(Drop)]
struct Shown<'a, P> {
    rt: &'a P,
    kind: Kind,
    world: World,
}

impl<'a, P: Print> Shown<'a, P> {
    // From a fresh world.
    fn new(rt: &'a P, kind: Kind) -> Shown<'a, P> {
        Shown {
            rt,
            kind,
            world: world::fresh(),
        }
    }

    fn word(&self) -> Number {
        Number(calls::word_number(self.kind, 0).map_or(0, |k| self.world.word(k)))
    }

    // The call of a thread that is under way is run, and its word shown before and after.
    fn go_on(&mut self, call: Call, thread: u8) -> io::Result<()> {
        let before = self.word();
        let ran = run(self.world, thread);
        self.world = ran.world;
        println!(self.rt;
            "numbers: {} at {before}: {} after {}, word {}",
            Named(call),
            Told(ran.event),
            ran.steps,
            self.word()
        )
    }

    // A call on object 0, from its begin.
    fn call(&mut self, call: Call, thread: u8) -> io::Result<()> {
        self.unseen(Record::begin(call, thread, 0));
        self.go_on(call, thread)
    }

    // An act that no line is for.
    fn unseen(&mut self, record: Record) {
        self.world = after(self.world, record);
    }

    // One act, and the word after it.
    fn act(&mut self, name: &str, record: Record) -> io::Result<()> {
        let answer = Answer::new(self.world, record);
        self.world = answer.world;
        println!(self.rt; "numbers: {name}: {answer}, word {}", self.word())
    }
}

// The second writer finds 0x80000001, which the first has left.
fn write(rt: &impl Print) -> io::Result<()> {
    let mut shown = Shown::new(rt, Kind::RwLock);
    shown.unseen(Record::set(Change::ForgottenReads, 0, 1));
    shown.call(Call::Write, 1)?;
    shown.call(Call::Write, 0)
}

fn unlock(rt: &impl Print) -> io::Result<()> {
    let mut shown = Shown::new(rt, Kind::Mutex);
    shown.call(Call::Lock, 0)?;
    shown.call(Call::Unlock, 0)
}

// Threads 1 and 2 wait for a closure of thread 0's, which panics.
fn once(rt: &impl Print) -> io::Result<()> {
    let mut shown = Shown::new(rt, Kind::Once);
    shown.call(Call::OnceCall, 0)?;
    shown.call(Call::OnceCall, 1)?;
    shown.call(Call::OnceWait, 2)?;
    shown.act("close by panic", Record::close(Ending::Panicked, 0))?;
    shown.act("its swap", Record::step(0))?;
    shown.act("its wake-all", Record::step(0))?;
    shown.go_on(Call::OnceCall, 1)
}

fn notify_one(rt: &impl Print) -> io::Result<()> {
    let mut shown = Shown::new(rt, Kind::Condvar);
    shown.act(
        "set notify_one's word",
        Record::set(Change::Condvar, 0, 0xFFFF_FFFF),
    )?;
    shown.unseen(Record::begin(Call::NotifyOne, 0, 0));
    shown.act("its fetch_add", Record::step(0))?;
    shown.act("its wake", Record::step(0))
}

pub fn lines(rt: &impl Print) -> io::Result<()> {
    write(rt)?;
    unlock(rt)?;
    once(rt)?;
    notify_one(rt)
}
