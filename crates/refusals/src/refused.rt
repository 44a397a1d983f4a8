// Each refusal in a world that is sound, with what is accepted beside it; and every two that stand side by side in
// document 01's order, in a world and with a record to which both apply. A record is act, choice, thread, object and
// value, in document 01's numbers.
use crate::holds::Holding::*;
use crate::lines::{self, Answer};
use crate::records::Record;
use crate::worlds::Scene::{self, *};
use std::{fmt, io};
use world::World;

// 1: the act or the choice is unknown, or a field not named is not 0.
const FIELDS: [Fed; 20] = [
    Fed(Fresh, Record(5, 0, 0, 0, 0)),
    Fed(Fresh, Record(255, 0, 0, 0, 0)),
    Fed(Fresh, Record(0, 4, 0, 0, 0)),
    Fed(Fresh, Record(1, 20, 0, 0, 0)),
    Fed(InLock, Record(2, 2, 0, 0, 0)),
    Fed(AsleepInPark, Record(3, 1, 0, 0, 0)),
    Fed(InClosure, Record(4, 3, 0, 0, 0)),
    Fed(Fresh, Record(0, 0, 1, 0, 0)),
    Fed(Fresh, Record(0, 0, 32, 0, 0)),
    Fed(Fresh, Record(0, 3, 0, 0, 1)),
    Fed(Fresh, Record(1, 0, 0, 0, 1)),
    Fed(Fresh, Record(1, 18, 0, 1, 0)),
    Fed(Fresh, Record(1, 18, 0, 0, 1)),
    Fed(Fresh, Record(1, 19, 0, 0, 1)),
    Fed(InLock, Record(2, 0, 0, 1, 0)),
    Fed(InLock, Record(2, 0, 0, 0, 1)),
    Fed(AsleepInPark, Record(3, 0, 0, 1, 0)),
    Fed(AsleepInPark, Record(3, 0, 0, 0, 1)),
    Fed(InClosure, Record(4, 0, 0, 1, 0)),
    Fed(InClosure, Record(4, 0, 0, 0, 1)),
];

// 2 and 3: a thread or an object that does not exist.
const NAMES: [Fed; 25] = [
    Fed(Fresh, Record(1, 0, 32, 0, 0)),
    Fed(Fresh, Record(1, 0, 255, 0, 0)),
    Fed(InLock, Record(2, 0, 32, 0, 0)),
    Fed(AsleepInPark, Record(3, 0, 32, 0, 0)),
    Fed(InClosure, Record(4, 0, 32, 0, 0)),
    Fed(Fresh, Record(1, 0, 31, 0, 0)),
    Fed(Fresh, Record(0, 0, 0, 4, 0)),
    Fed(Fresh, Record(0, 1, 0, 4, 0)),
    Fed(Fresh, Record(0, 2, 0, 4, 0)),
    Fed(Fresh, Record(0, 3, 0, 4, 0)),
    Fed(Fresh, Record(1, 0, 0, 4, 0)),
    Fed(Fresh, Record(1, 1, 0, 255, 0)),
    Fed(Fresh, Record(1, 3, 0, 4, 0)),
    Fed(Fresh, Record(1, 7, 0, 4, 0)),
    Fed(Fresh, Record(1, 11, 0, 4, 0)),
    Fed(Fresh, Record(1, 12, 0, 4, 0)),
    Fed(Fresh, Record(1, 13, 0, 4, 0)),
    Fed(Fresh, Record(1, 17, 0, 4, 0)),
    Fed(Fresh, Record(1, 17, 0, 3, 0)),
    Fed(Fresh, Record(1, 19, 0, 32, 0)),
    Fed(Fresh, Record(1, 19, 0, 31, 0)),
    Fed(With(MutexHeld(0)), Record(1, 10, 0, 4, 0)),
    Fed(With(MutexHeld(0)), Record(1, 10, 0, 0, 4)),
    Fed(With(MutexHeld(0)), Record(1, 10, 0, 0, 0x0000_0100)),
    Fed(With(MutexHeld(0)), Record(1, 10, 0, 3, 0)),
];

// 4 to 8: where the thread stands.
const STATES: [Fed; 13] = [
    Fed(InLock, Record(1, 0, 0, 0, 0)),
    Fed(AsleepInPark, Record(1, 0, 0, 0, 0)),
    Fed(InClosure, Record(1, 0, 0, 0, 0)),
    Fed(Fresh, Record(2, 0, 0, 0, 0)),
    Fed(Fresh, Record(3, 0, 0, 0, 0)),
    Fed(Fresh, Record(4, 0, 0, 0, 0)),
    Fed(AsleepInPark, Record(2, 0, 0, 0, 0)),
    Fed(AsleepInPark, Record(4, 0, 0, 0, 0)),
    Fed(InLock, Record(3, 0, 0, 0, 0)),
    Fed(InClosure, Record(3, 0, 0, 0, 0)),
    Fed(AsleepInPark, Record(3, 0, 0, 0, 0)),
    Fed(InLock, Record(2, 1, 0, 0, 0)),
    Fed(InLock, Record(2, 0, 0, 0, 0)),
];

// 9: what it holds.
const HOLDS: [Fed; 17] = [
    Fed(Fresh, Record(1, 2, 0, 0, 0)),
    Fed(With(MutexHeldByAnother(0)), Record(1, 2, 0, 0, 0)),
    Fed(With(MutexHeld(1)), Record(1, 2, 0, 0, 0)),
    Fed(With(MutexHeld(0)), Record(1, 2, 0, 0, 0)),
    Fed(Fresh, Record(1, 5, 0, 0, 0)),
    Fed(With(ReadForgotten), Record(1, 5, 0, 0, 0)),
    Fed(With(WriteHeld), Record(1, 5, 0, 0, 0)),
    Fed(With(ReadHeld), Record(1, 5, 0, 0, 0)),
    Fed(Fresh, Record(1, 8, 0, 0, 0)),
    Fed(With(ReadHeld), Record(1, 8, 0, 0, 0)),
    Fed(With(WriteHeld), Record(1, 8, 0, 0, 0)),
    Fed(Fresh, Record(1, 9, 0, 0, 0)),
    Fed(With(ReadHeld), Record(1, 9, 0, 0, 0)),
    Fed(With(WriteHeld), Record(1, 9, 0, 0, 0)),
    Fed(Fresh, Record(1, 10, 0, 0, 0)),
    Fed(With(MutexHeld(1)), Record(1, 10, 0, 0, 0)),
    Fed(With(MutexHeld(1)), Record(1, 10, 0, 0, 1)),
];

// 10 and 11: closures. 12 and 13: sets. 19.
const OTHERS: [Fed; 19] = [
    Fed(InClosure, Record(2, 0, 0, 0, 0)),
    Fed(InLock, Record(4, 0, 0, 0, 0)),
    Fed(BeforeClosure, Record(4, 0, 0, 0, 0)),
    Fed(ClosureClosed, Record(4, 0, 0, 0, 0)),
    Fed(InClosure, Record(4, 0, 0, 0, 0)),
    Fed(InClosure, Record(4, 1, 0, 0, 0)),
    Fed(InClosure, Record(4, 2, 0, 0, 0)),
    Fed(InLock, Record(0, 1, 0, 0, 7)),
    Fed(BeginRefused, Record(0, 1, 0, 0, 7)),
    Fed(With(ReadForgotten), Record(0, 1, 0, 0, 7)),
    Fed(Fresh, Record(0, 0, 0, 0, 0x3FFF_FFFE)),
    Fed(Fresh, Record(0, 0, 0, 0, 0x3FFF_FFFF)),
    Fed(Fresh, Record(0, 0, 0, 0, 0xFFFF_FFFF)),
    Fed(Fresh, Record(0, 1, 0, 0, 0xFFFF_FFFF)),
    Fed(Fresh, Record(0, 2, 0, 0, 0xFFFF_FFFF)),
    Fed(Fresh, Record(0, 3, 0, 0, 0)),
    Fed(MutexWordOf3, Record(1, 0, 0, 0, 0)),
    Fed(BeforeParkWaits, Record(2, 0, 0, 0, 0)),
    Fed(AwakeInRow, Record(2, 0, 0, 0, 0)),
];

// No sound world has an idle sleeper, or one in a closure: for 5 before 6, and for 6 before 10, a forged world shows
// that 19 is before both. 22, 21 and 20 come before 19 and are no answers to an act: they are about bytes of a file.
const ORDER: [(Fed, u8); 32] = [
    (Fed(MutexWordOf3, Record(5, 0, 0, 0, 0)), 1),
    (Fed(Fresh, Record(5, 255, 0, 0, 0)), 1),
    (Fed(Fresh, Record(5, 0, 32, 0, 0)), 2),
    (Fed(Fresh, Record(1, 20, 32, 0, 0)), 2),
    (Fed(InLock, Record(2, 2, 32, 0, 0)), 2),
    (Fed(AsleepInPark, Record(3, 1, 32, 0, 0)), 2),
    (Fed(InClosure, Record(4, 3, 32, 0, 0)), 2),
    (Fed(Fresh, Record(1, 0, 32, 0, 1)), 1),
    (Fed(InLock, Record(2, 0, 32, 1, 0)), 1),
    (Fed(AsleepInPark, Record(3, 0, 32, 1, 0)), 1),
    (Fed(InClosure, Record(4, 0, 32, 0, 1)), 1),
    (Fed(Fresh, Record(0, 3, 0, 4, 1)), 3),
    (Fed(Fresh, Record(0, 0, 1, 4, 0)), 3),
    (Fed(Fresh, Record(1, 0, 0, 4, 1)), 3),
    (Fed(InLock, Record(0, 0, 0, 4, 0)), 12),
    (Fed(Fresh, Record(0, 0, 0, 4, 0x3FFF_FFFF)), 13),
    (Fed(InLock, Record(0, 0, 0, 0, 0x3FFF_FFFF)), 13),
    (Fed(InLock, Record(1, 0, 0, 4, 0)), 4),
    (Fed(Fresh, Record(1, 2, 0, 4, 0)), 9),
    (Fed(InLock, Record(1, 2, 0, 0, 0)), 9),
    (Fed(Fresh, Record(2, 0, 0, 1, 0)), 5),
    (Fed(IdleAndAsleep, Record(2, 0, 0, 0, 0)), 5),
    (Fed(Fresh, Record(2, 1, 0, 0, 0)), 8),
    (Fed(AsleepInClosure, Record(2, 0, 0, 0, 0)), 6),
    (Fed(AsleepInPark, Record(2, 1, 0, 0, 0)), 8),
    (Fed(InClosure, Record(2, 1, 0, 0, 0)), 8),
    (Fed(Fresh, Record(3, 0, 0, 1, 0)), 5),
    (Fed(Fresh, Record(3, 0, 0, 0, 0)), 7),
    (Fed(Fresh, Record(4, 0, 0, 0, 1)), 5),
    (Fed(IdleAndAsleep, Record(4, 0, 0, 0, 0)), 5),
    (Fed(Fresh, Record(4, 0, 0, 0, 0)), 11),
    (Fed(AsleepInPark, Record(4, 0, 0, 0, 0)), 11),
];

// A world, and a record that it is fed.
#[derive(Clone, Copy)]
pub struct Fed(pub Scene, pub Record);

impl Fed {
    pub fn world(self) -> World {
        self.0.world()
    }

    pub fn record(self) -> Record {
        self.1
    }
}

impl fmt::Display for Fed {
    fn fmt<W: fmt::Write>(&self, f: &mut fmt::Formatter<W>) -> fmt::Result {
        write!(f, "{}, {}", self.0, self.1)
    }
}

pub fn lines(rt: &impl Print) -> io::Result<()> {
    for cases in [
        FIELDS.as_slice(),
        NAMES.as_slice(),
        STATES.as_slice(),
        HOLDS.as_slice(),
        OTHERS.as_slice(),
    ] {
        for case in cases {
            lines::print(rt, "refusals", case, case.world(), case.record())?;
        }
    }
    Ok(())
}

// `also` is the refusal of less precedence that applies as well.
pub fn order_lines(rt: &impl Print) -> io::Result<()> {
    for (case, also) in ORDER {
        let answer = Answer::new(case.world(), case.record());
        println!(rt; "order: {case}: {answer}, before {also}")?;
    }
    Ok(())
}
