// What is held in a world.
use crate::forge::{self, Forge, Hold};
use crate::records::Record;
use crate::worlds;
use acts::Change;
use calls::Call;
use std::fmt;
use words::Kind;
use world::World;

// What thread 0 holds, or another, or nobody.
#[derive(Clone, Copy)]
pub enum Holding {
    NothingHeld,
    MutexHeld(u8),
    MutexHeldByAnother(u8),
    ReadHeld,
    ReadForgotten,
    WriteHeld,
}

impl Holding {
    // The world by hand, with the note that an act other than set was accepted.
    pub fn forged(self) -> World {
        let w = forge::fresh(true);
        match self {
            Holding::NothingHeld => w,
            Holding::MutexHeld(mutex) => w.word(Kind::Mutex, mutex, 1).holds(0, mutex, Hold::Mutex),
            Holding::MutexHeldByAnother(mutex) => w
                .word(Kind::Mutex, mutex, 1)
                .holds(1, mutex, Hold::Mutex),
            Holding::ReadHeld => w.word(Kind::RwLock, 0, 1).holds(0, 0, Hold::Reads(1)),
            Holding::ReadForgotten => w.word(Kind::RwLock, 0, 1).forgotten(0, 1),
            Holding::WriteHeld => w
                .word(Kind::RwLock, 0, 0x3FFF_FFFF)
                .holds(0, 0, Hold::Write),
        }
    }

    // The world that acts lead to.
    pub fn reached(self) -> World {
        match self {
            Holding::NothingHeld => world::fresh(),
            Holding::MutexHeld(mutex) => worlds::begun(Call::Lock, 0, mutex, 1),
            Holding::MutexHeldByAnother(mutex) => worlds::begun(Call::Lock, 1, mutex, 1),
            Holding::ReadHeld => worlds::begun(Call::Read, 0, 0, 2),
            Holding::ReadForgotten => worlds::after(
                world::fresh(),
                Record::set(Change::ForgottenReads, 0, 1),
            ),
            Holding::WriteHeld => worlds::begun(Call::Write, 0, 0, 1),
        }
    }
}

impl fmt::Display for Holding {
    fn fmt<W: fmt::Write>(&self, f: &mut fmt::Formatter<W>) -> fmt::Result {
        match self {
            Holding::NothingHeld => write!(f, "nothing held"),
            Holding::MutexHeld(mutex) => write!(f, "mutex {mutex} held"),
            Holding::MutexHeldByAnother(mutex) => write!(f, "mutex {mutex} held by another"),
            Holding::ReadHeld => write!(f, "a read held"),
            Holding::ReadForgotten => write!(f, "a read forgotten"),
            Holding::WriteHeld => write!(f, "a write held"),
        }
    }
}
