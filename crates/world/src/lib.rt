// A world: threads, words, holds and the row of sleepers, by value. A world handed in may be any value of
// its type: every function has an answer for it.
#![tactic(auto, unfolding(crate::specs::Holds::has_hold, crate::specs::Holds::holds_mutex, crate::specs::Holds::holds_write, crate::specs::Holds::is_held, crate::specs::Holds::reads_of, crate::specs::World::fresh_world, crate::specs::World::sleeps_on))]

ghost use Rattle.std.specs.Prelude.{◌≡◌, ◌<◌, ◌+◌, ◌*◌, ◌%◌, get_or};
ghost use Rattle.queue.specs.Row.{THREADS};
ghost use Rattle.calls.specs.Objects.{word_of};
ghost use Rattle.world.specs.World.{fresh_world, sleeps_on, thread_at, word_at};
ghost use Rattle.world.specs.Holds.{mutex_slot, lock_slot, holds_mutex, holds_write, reads_of, has_hold};

use calls::{At, CONDVARS, MUTEXES, Need, ONCES, RWLOCKS, Thread, WORDS};
use queue::{Row, THREADS};
use words::{Kind, Needs, OnceWord};

// A hold of each thread on each mutex, and on each RwLock.
pub const MUTEX_HOLDS: usize = THREADS * MUTEXES;

pub const LOCK_HOLDS: usize = THREADS * RWLOCKS;

const FIRST_ONCE: usize = MUTEXES + RWLOCKS + RWLOCKS + CONDVARS;

#[derive(Clone, Copy)]
pub struct World {
    // the row of all words, by calls::word_number
    pub words: [u32; WORDS],
    // mutex holds, by thread * MUTEXES + mutex
    pub locked: [bool; MUTEX_HOLDS],
    // write holds, by thread * RWLOCKS + lock
    pub written: [bool; LOCK_HOLDS],
    // read holds, so too
    pub reads: [u32; LOCK_HOLDS],
    // reads of each RwLock that nobody will free
    pub forgotten: [u32; RWLOCKS],
    pub threads: [Thread; THREADS],
    pub sleepers: Row,
    // whether an act other than set was accepted
    pub started: bool,
}

const IDLE: Thread = Thread {
    at: At::Idle,
    asleep: false,
};

pub fn fresh() -> World
    ensures { result ≡ fresh_world }
{
    let mut words: [u32; WORDS] = [0; WORDS];
    words[FIRST_ONCE..FIRST_ONCE + ONCES].fill(OnceWord::INCOMPLETE);
    World {
        words,
        locked: [false; MUTEX_HOLDS],
        written: [false; LOCK_HOLDS],
        reads: [0; LOCK_HOLDS],
        forgotten: [0; RWLOCKS],
        threads: [IDLE; THREADS],
        sleepers: Row::new(),
        started: false,
    }
}

// Whether thread t, with this record, sleeps on word k.
#[tactic(auto, using(crate::proofs::Words::operand_found), unfolding(crate::specs::World::sleeps_on))]
pub fn sleeps_on(k: usize, t: u8, th: Thread) -> bool
    ensures { result ≡ sleeps_on k t th }
{
    th.asleep && calls::operand(t, th.at).unwrap_or(WORDS) == k
}

// The place of thread t's hold of an object, of so many, in the table of holds of its kind.
fn slot<const OBJECTS: usize>(t: u8, object: u8) -> usize
    requires some { 0 < OBJECTS }
    requires few { OBJECTS < 256 }
    ensures { result ≡ (t * OBJECTS + object) % (THREADS * OBJECTS) }
{
    ((t as usize) * OBJECTS + (object as usize)) % (THREADS * OBJECTS)
}

// The place of thread t's hold of a mutex; so of an RwLock.
pub fn mutex_slot(t: u8, object: u8) -> usize
    ensures { result ≡ mutex_slot t object }
{
    slot::<MUTEXES>(t, object)
}

pub fn lock_slot(t: u8, object: u8) -> usize
    ensures { result ≡ lock_slot t object }
{
    slot::<RWLOCKS>(t, object)
}

impl World {
    // The record of thread t; idle where there is no such thread.
    pub fn thread(&self, t: u8) -> Thread
        ensures { result ≡ thread_at self.now t }
    {
        self.threads.get(t as usize).copied().unwrap_or(IDLE)
    }

    // Word k of the row; 0 past its end.
    pub fn word(&self, k: usize) -> u32
        ensures { result ≡ word_at self.now k }
    {
        self.words.get(k).copied().unwrap_or(0)
    }

    // The word of an object; 0 where there is none.
    #[tactic(auto, using(crate::proofs::Words::word_found))]
    pub fn word_for(&self, kind: Kind, object: u8) -> u32
        ensures { result ≡ get_or self.now.words (word_of kind object) 0 }
    {
        self.word(calls::word_number(kind, object).unwrap_or(WORDS))
    }

    // The reads of an RwLock that nobody will free; 0 where there is no such lock.
    pub fn forgotten_reads(&self, lock: u8) -> u32
        ensures { result ≡ get_or self.now.forgotten lock 0 }
    {
        self.forgotten.get(lock as usize).copied().unwrap_or(0)
    }

    // Whether thread t holds a mutex; whether it holds an RwLock for writing, and how often for reading.
    pub fn holds_mutex(&self, mutex: u8, t: u8) -> bool
        ensures { result ≡ holds_mutex self.now.locked mutex t }
    {
        self.locked[mutex_slot(t, mutex)]
    }

    pub fn holds_write(&self, lock: u8, t: u8) -> bool
        ensures { result ≡ holds_write self.now.written lock t }
    {
        self.written[lock_slot(t, lock)]
    }

    pub fn reads(&self, lock: u8, t: u8) -> u32
        ensures { result ≡ reads_of self.now.reads lock t }
    {
        self.reads[lock_slot(t, lock)]
    }

    // Whether thread t has the hold that is needed.
    pub fn has_hold(&self, t: u8, need: Need) -> bool
        ensures { result ≡ has_hold self.now.locked self.now.written self.now.reads t need }
    {
        match need.hold {
            Needs::Nothing => true,
            Needs::Mutex => self.holds_mutex(need.object, t),
            Needs::Read => 0 < self.reads(need.object, t),
            Needs::Write => self.holds_write(need.object, t),
        }
    }
}
