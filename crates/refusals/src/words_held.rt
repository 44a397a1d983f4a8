// Clauses 4 to 6 of soundness: the words, by themselves and with the holds.
use crate::forge::{self, Forge, Hold};
use crate::lines;
use crate::records::Record;
use crate::shown::{Number, kind_name};
use calls::Call;
use std::{fmt, io};
use words::Kind;
use world::World;

// A mutex word is 0 and no thread holds the mutex, or it is 1 or 2 and one does. Once words are 0 to 7, and
// writer_notify, condvar and Parker words may be anything.
const WORDS: [Word; 22] = [
    Word(Kind::Mutex, 0, 0, 0),
    Word(Kind::Mutex, 0, 0, 1),
    Word(Kind::Mutex, 0, 0, 2),
    Word(Kind::Mutex, 0, 1, 0),
    Word(Kind::Mutex, 0, 1, 1),
    Word(Kind::Mutex, 0, 1, 2),
    Word(Kind::Mutex, 0, 2, 0),
    Word(Kind::Mutex, 0, 2, 1),
    Word(Kind::Mutex, 0, 2, 2),
    Word(Kind::Mutex, 0, 3, 1),
    Word(Kind::Mutex, 0, 0xFFFF_FFFF, 1),
    Word(Kind::Mutex, 3, 0, 1),
    Word(Kind::Mutex, 3, 1, 1),
    Word(Kind::Mutex, 3, 3, 1),
    Word(Kind::Once, 0, 4, 0),
    Word(Kind::Once, 0, 7, 0),
    Word(Kind::Once, 0, 8, 0),
    Word(Kind::Once, 0, 0xFFFF_FFFF, 0),
    Word(Kind::Once, 3, 8, 0),
    Word(Kind::WriterNotify, 0, 0xFFFF_FFFF, 0),
    Word(Kind::Condvar, 0, 0xFFFF_FFFF, 0),
    Word(Kind::Parker, 0, 2, 0),
];

// The low 30 bits of an RwLock's word are the reads held and forgotten, at most 0x3FFFFFFE. The flags are free.
const READS: [LockWord; 18] = [
    LockWord(0, 0, 0, [0, 0], 0),
    LockWord(0, 1, 0, [0, 0], 0),
    LockWord(0, 0, 0, [1, 0], 0),
    LockWord(0, 1, 0, [1, 0], 0),
    LockWord(0, 2, 0, [1, 0], 0),
    LockWord(0, 2, 0, [2, 0], 0),
    LockWord(0, 2, 0, [1, 1], 0),
    LockWord(0, 1, 1, [0, 0], 0),
    LockWord(0, 2, 1, [0, 0], 0),
    LockWord(0, 3, 1, [1, 1], 0),
    LockWord(0, 2, 1, [1, 1], 0),
    LockWord(0, 0xC000_0000, 0, [0, 0], 0),
    LockWord(0, 0xC000_0001, 0, [1, 0], 0),
    LockWord(0, 0xC000_0000, 0, [1, 0], 0),
    LockWord(0, 0x3FFF_FFFE, 0x3FFF_FFFE, [0, 0], 0),
    LockWord(0, 0x3FFF_FFFF, 0x3FFF_FFFF, [0, 0], 0),
    LockWord(0, 0x3FFF_FFFE, 0, [0x3FFF_FFFD, 1], 0),
    LockWord(0, 0x3FFF_FFFF, 0, [0x3FFF_FFFE, 1], 0),
];

// Or they are 0x3FFFFFFF, one thread writes, and no read is held or forgotten.
const WRITERS: [LockWord; 10] = [
    LockWord(0, 0x3FFF_FFFF, 0, [0, 0], 1),
    LockWord(0, 0xFFFF_FFFF, 0, [0, 0], 1),
    LockWord(0, 0x3FFF_FFFF, 0, [0, 0], 0),
    LockWord(0, 0x3FFF_FFFF, 0, [0, 0], 2),
    LockWord(0, 0, 0, [0, 0], 1),
    LockWord(0, 0x3FFF_FFFE, 0, [0, 0], 1),
    LockWord(0, 0x3FFF_FFFF, 1, [0, 0], 1),
    LockWord(0, 0x3FFF_FFFF, 0, [1, 0], 1),
    LockWord(0, 0x3FFF_FFFF, 0, [0, 1], 1),
    LockWord(0, 1, 0, [0, 1], 1),
];

// A sum that would fit if it wrapped, at 2^32 or at the low 30 bits; and the last lock.
const SUMS: [LockWord; 10] = [
    LockWord(0, 0, 0, [0x8000_0000, 0x8000_0000], 0),
    LockWord(0, 1, 1, [0x8000_0000, 0x8000_0000], 0),
    LockWord(0, 0x3FFF_FFFF, 0, [0x8000_0000, 0x8000_0000], 1),
    LockWord(0, 0, 0xFFFF_FFFF, [1, 0], 0),
    LockWord(0, 0, 0, [0x4000_0000, 0], 0),
    LockWord(0, 1, 0, [0x4000_0000, 1], 0),
    LockWord(0, 0x3FFF_FFFD, 0xFFFF_FFFF, [0xFFFF_FFFF, 0xFFFF_FFFF], 0),
    LockWord(3, 1, 0, [0, 1], 0),
    LockWord(3, 0, 0, [0, 1], 0),
    LockWord(3, 1, 0, [0, 0], 0),
];

// A kind of word, the object, the word, and how many threads hold the mutex of that number: the last, then the one
// before.
#[derive(Clone, Copy)]
pub struct Word(pub Kind, pub u8, pub u32, pub u8);

impl Word {
    pub fn world(self, started: bool) -> World {
        let Word(kind, object, word, holders) = self;
        let w = forge::fresh(started).word(kind, object, word);
        match holders {
            0 => w,
            1 => w.holds(31, object, Hold::Mutex),
            _ => w
                .holds(31, object, Hold::Mutex)
                .holds(30, object, Hold::Mutex),
        }
    }
}

impl fmt::Display for Word {
    fn fmt<W: fmt::Write>(&self, f: &mut fmt::Formatter<W>) -> fmt::Result {
        let Word(kind, object, word, holders) = *self;
        write!(
            f,
            "{} {object} is {}, holders {holders}",
            kind_name(kind),
            Number(word)
        )
    }
}

// An RwLock, its state, its forgotten reads, the reads of the first thread and of the last, and how many write: the
// first thread, then the second.
#[derive(Clone, Copy)]
pub struct LockWord(pub u8, pub u32, pub u32, pub [u32; 2], pub u8);

impl LockWord {
    pub fn world(self, started: bool) -> World {
        let LockWord(lock, state, forgotten, [first, last], writers) = self;
        let w = forge::fresh(started)
            .word(Kind::RwLock, lock, state)
            .forgotten(lock, forgotten)
            .holds(0, lock, Hold::Reads(first))
            .holds(31, lock, Hold::Reads(last));
        match writers {
            0 => w,
            1 => w.holds(0, lock, Hold::Write),
            _ => w.holds(0, lock, Hold::Write).holds(1, lock, Hold::Write),
        }
    }
}

impl fmt::Display for LockWord {
    fn fmt<W: fmt::Write>(&self, f: &mut fmt::Formatter<W>) -> fmt::Result {
        let LockWord(lock, state, forgotten, [first, last], writers) = *self;
        write!(
            f,
            "RwLock {lock} is {}, forgotten {}, reads {} {}, writers {writers}",
            Number(state),
            Number(forgotten),
            Number(first),
            Number(last)
        )
    }
}

// A begin that takes nothing for granted.
fn begin() -> Record {
    Record::begin(Call::TryLock, 5, 0)
}

pub fn lines(rt: &impl Print) -> io::Result<()> {
    for case in &WORDS {
        lines::print(rt, "words", case, case.world(true), begin())?;
    }
    for cases in [READS.as_slice(), WRITERS.as_slice(), SUMS.as_slice()] {
        for case in cases {
            lines::print(rt, "locks", case, case.world(true), begin())?;
        }
    }
    Ok(())
}
