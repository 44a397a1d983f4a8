// Worlds made by hand: each method changes one thing and asks for nothing else to agree with it. Numbers that
// are past the end change nothing.
use calls::{At, Thread};
use queue::{Row, THREADS};
use words::Kind;
use world::World;

// A fresh world with or without the note that an act other than set was accepted.
pub fn fresh(started: bool) -> World {
    World {
        started,
        ..world::fresh()
    }
}

fn put<T: Copy>(row: &mut [T], i: usize, value: T) {
    if let Some(place) = row.get_mut(i) {
        *place = value;
    }
}

// A hold on a mutex, so many read holds on an RwLock, or a write hold on one.
#[derive(Clone, Copy)]
pub enum Hold {
    Mutex,
    Reads(u32),
    Write,
}

// So many mutexes and so many RwLocks have holds, thread by thread.
const OBJECTS: usize = 4;

pub trait Forge {
    fn word(self, kind: Kind, object: u8, value: u32) -> Self;

    // Thread t stands there, awake.
    fn stands(self, t: u8, at: At) -> Self;

    // Thread 0 sleeps there, alone in the row.
    fn sleeps(self, at: At) -> Self;

    fn row(self, places: [u8; THREADS], count: usize) -> Self;

    // Thread t has this hold of the mutex or RwLock of that number.
    fn holds(self, t: u8, object: u8, hold: Hold) -> Self;

    // So many reads of an RwLock that nobody will free.
    fn forgotten(self, lock: u8, count: u32) -> Self;
}

impl Forge for World {
    fn word(mut self, kind: Kind, object: u8, value: u32) -> World {
        if let Some(k) = calls::word_number(kind, object) {
            put(&mut self.words, k, value);
        }
        self
    }

    fn stands(mut self, t: u8, at: At) -> World {
        put(&mut self.threads, t as usize, Thread { at, asleep: false });
        self
    }

    fn sleeps(mut self, at: At) -> World {
        self.threads[0] = Thread { at, asleep: true };
        self.row([0; THREADS], 1)
    }

    fn row(self, places: [u8; THREADS], count: usize) -> World {
        World {
            sleepers: Row { places, count },
            ..self
        }
    }

    fn holds(mut self, t: u8, object: u8, hold: Hold) -> World {
        let i = t as usize * OBJECTS + object as usize;
        match hold {
            Hold::Mutex => put(&mut self.locked, i, true),
            Hold::Reads(count) => put(&mut self.reads, i, count),
            Hold::Write => put(&mut self.written, i, true),
        }
        self
    }

    fn forgotten(mut self, lock: u8, count: u32) -> World {
        put(&mut self.forgotten, lock as usize, count);
        self
    }
}
