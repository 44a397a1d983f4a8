// Clause 3 of soundness: each sleeper is at a futex_wait and stands once in the row, and nobody else does. Places
// of the row that do not count are 0.
use crate::forge::{self, Forge};
use crate::lines;
use crate::places::Inside;
use crate::places::Place::*;
use crate::records::Record;
use crate::shown::Number;
use calls::{Call, Thread};
use queue::THREADS;
use std::{fmt, io};
use world::World;

// Where the row is right, or wrong.
const ROWS: [Sleepers; 28] = [
    Sleepers(1, [0, 0, 0], 1),
    Sleepers(1, [0, 0, 0], 0),
    Sleepers(1, [0, 0, 0], 2),
    Sleepers(1, [0, 32, 0], 2),
    Sleepers(1, [0, 255, 0], 2),
    Sleepers(1, [1, 0, 0], 1),
    Sleepers(1, [0, 5, 0], 1),
    Sleepers(2, [0, 1, 0], 2),
    Sleepers(2, [1, 0, 0], 2),
    Sleepers(2, [0, 0, 0], 2),
    Sleepers(2, [0, 0, 0], 1),
    Sleepers(2, [0, 1, 0], 3),
    Sleepers(2, [0, 2, 0], 2),
    Sleepers(2, [0, 32, 0], 2),
    Sleepers(2, [0, 255, 0], 2),
    Sleepers(32, [0, 1, 31], 32),
    Sleepers(32, [1, 0, 31], 32),
    Sleepers(32, [0, 0, 31], 32),
    Sleepers(32, [0, 1, 32], 32),
    Sleepers(32, [0, 1, 31], 31),
    Sleepers(32, [0, 1, 31], 33),
    Sleepers(32, [0, 1, 31], 0xFFFF_FFFF),
    Sleepers(0, [0, 0, 0], 0),
    Sleepers(0, [0, 0, 0], 1),
    Sleepers(0, [5, 0, 0], 0),
    Sleepers(0, [0, 0, 1], 0),
    Sleepers(0, [0, 0, 0], 33),
    Sleepers(0, [0, 0, 0], 0xFFFF_FFFF),
];

// Where the sleeper is right, or wrong.
const ASLEEP: [Inside; 16] = [
    Inside(LockWaitsOn, 2),
    Inside(CondvarWaitWaitsOn, 0),
    Inside(CondvarWaitLockWaitsOn, 2),
    Inside(ReadWaitsOn, 0x7FFF_FFFF),
    Inside(WriteWaitsOn, 0),
    Inside(OnceCallWaitsOn, 5),
    Inside(OnceWaitWaitsOn, 5),
    Inside(ParkWaitsOn, 0xFFFF_FFFF),
    Inside(Idle, 0),
    Inside(ParkExchanges, 1),
    Inside(LockSpins, 100),
    Inside(UnlockWakes, 1),
    Inside(ReadLocks, 0),
    Inside(WriteFlags, 1),
    Inside(OnceCallRunsFrom, 3),
    Inside(InClosureOf, 0),
];

// How many threads sleep in park, from 0 on; the first, second and last place of the row, with each thread between in
// the place of its number; and the row's count.
#[derive(Clone, Copy)]
struct Sleepers(u8, [u8; 3], u32);

impl Sleepers {
    fn world(self) -> World {
        let Sleepers(asleep, [first, second, last], count) = self;
        let mut w = forge::fresh(true);
        let mut places = [0; THREADS];
        let parked = Thread {
            at: ParkWaitsOn.with(0),
            asleep: true,
        };
        for t in 0..asleep.min(32) {
            w.threads[t as usize] = parked;
            places[t as usize] = t;
        }
        places[0] = first;
        places[1] = second;
        places[31] = last;
        w.row(places, count as usize)
    }

    // Thread 0 is woken, or begins a park where nobody sleeps.
    fn record(self) -> Record {
        let Sleepers(asleep, _, _) = self;
        if asleep == 0 {
            return Record::begin(Call::Park, 0, 0);
        }
        Record::wake(0)
    }
}

impl fmt::Display for Sleepers {
    fn fmt<W: fmt::Write>(&self, f: &mut fmt::Formatter<W>) -> fmt::Result {
        let Sleepers(asleep, [first, second, last], count) = *self;
        write!(
            f,
            "{asleep} asleep, row {first} {second} .. {last}, count {}",
            Number(count)
        )
    }
}

pub fn lines(rt: &impl Print) -> io::Result<()> {
    for case in &ROWS {
        lines::print(rt, "sleepers", case, case.world(), case.record())?;
    }
    for case in &ASLEEP {
        lines::print(rt, "asleep", case, case.asleep(), Record::wake(0))?;
    }
    Ok(())
}
