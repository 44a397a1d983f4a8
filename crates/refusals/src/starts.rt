// Clause 8 of soundness: while no act other than set was accepted, set acts make the world from a fresh one.
use crate::lines;
use crate::records::Record;
use crate::refused::Fed;
use crate::words_held::{LockWord, Word};
use crate::worlds::Scene::*;
use acts::Change;
use std::io;
use words::Kind;

const WORDS: [Word; 12] = [
    Word(Kind::Mutex, 0, 0, 0),
    Word(Kind::Mutex, 0, 1, 1),
    Word(Kind::WriterNotify, 0, 0xFFFF_FFFF, 0),
    Word(Kind::Condvar, 0, 0xFFFF_FFFF, 0),
    Word(Kind::Once, 0, 0, 0),
    Word(Kind::Once, 0, 1, 0),
    Word(Kind::Once, 0, 2, 0),
    Word(Kind::Once, 0, 4, 0),
    Word(Kind::Once, 0, 7, 0),
    Word(Kind::Once, 3, 7, 0),
    Word(Kind::Parker, 0, 1, 0),
    Word(Kind::Parker, 31, 0xFFFF_FFFF, 0),
];

const LOCKS: [LockWord; 8] = [
    LockWord(0, 0, 0, [0, 0], 0),
    LockWord(0, 5, 5, [0, 0], 0),
    LockWord(0, 0x3FFF_FFFE, 0x3FFF_FFFE, [0, 0], 0),
    LockWord(0, 0x8000_0000, 0, [0, 0], 0),
    LockWord(0, 0x4000_0005, 5, [0, 0], 0),
    LockWord(0, 1, 0, [1, 0], 0),
    LockWord(3, 1, 0, [0, 1], 0),
    LockWord(0, 0x3FFF_FFFF, 0, [0, 0], 1),
];

const THREADS: [Fed; 2] = [
    Fed(InLockUnnoted, Record(0, 1, 0, 0, 7)),
    Fed(AsleepUnnoted, Record(0, 1, 0, 0, 7)),
];

// A set of the last writer_notify word.
fn set() -> Record {
    Record::set(Change::WriterNotify, 3, 7)
}

pub fn lines(rt: &impl Print) -> io::Result<()> {
    for case in &WORDS {
        lines::print(rt, "starts", case, case.world(false), set())?;
    }
    for case in &LOCKS {
        lines::print(rt, "starts", case, case.world(false), set())?;
    }
    for case in &THREADS {
        lines::print(rt, "starts", case, case.world(), case.record())?;
    }
    Ok(())
}
