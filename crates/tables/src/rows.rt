// The rows of the table: each is a position, what its operation finds, and what its step then does.
use crate::names::Name;
use crate::position::Position;
use once::{Ending, OnceAt};
use std::{fmt, io};
use words::{Kind, Wake};

// The words of interest, for any kind but an RwLock's state.
const SMALL: [u32; 11] = [
    0,
    1,
    2,
    3,
    4,
    5,
    6,
    7,
    0x7FFF_FFFF,
    0xFFFF_FFFE,
    0xFFFF_FFFF,
];

// Each count of interest with neither flag, readers waiting, writers waiting, both.
const RWLOCK: [u32; 24] = [
    0x0000_0000,
    0x0000_0001,
    0x0000_0002,
    0x3FFF_FFFD,
    0x3FFF_FFFE,
    0x3FFF_FFFF,
    0x4000_0000,
    0x4000_0001,
    0x4000_0002,
    0x7FFF_FFFD,
    0x7FFF_FFFE,
    0x7FFF_FFFF,
    0x8000_0000,
    0x8000_0001,
    0x8000_0002,
    0xBFFF_FFFD,
    0xBFFF_FFFE,
    0xBFFF_FFFF,
    0xC000_0000,
    0xC000_0001,
    0xC000_0002,
    0xFFFF_FFFD,
    0xFFFF_FFFE,
    0xFFFF_FFFF,
];

// Those of a lock that is write locked.
pub const WRITE_LOCKED: [u32; 4] = [0x3FFF_FFFF, 0x7FFF_FFFF, 0xBFFF_FFFF, 0xFFFF_FFFF];

// Which way a step goes, where it has more than one.
#[derive(Clone, Copy)]
enum Way {
    Only,
    // a weak exchange fails, whatever it finds
    Fails,
    // of those asleep on the word of a wake of one there is nobody, or somebody
    Nobody,
    Somebody,
}

impl fmt::Display for Way {
    fn fmt<W: fmt::Write>(&self, f: &mut fmt::Formatter<W>) -> fmt::Result {
        f.write_str(match self {
            Way::Only => "",
            Way::Fails => " fails",
            Way::Nobody => " nobody",
            Way::Somebody => " somebody",
        })
    }
}

// The row of one way that the step at the word `found` may go.
fn row<A: Position>(rt: &impl Print, at: A, found: u32, way: Way) -> io::Result<()> {
    let fails = matches!(way, Way::Fails);
    let anyone = matches!(way, Way::Somebody);
    let step = at.decide(fails, found, anyone);
    println!(rt;
        "{} at {} {found:08X}{way}: {:08X}{}{} {}",
        Name(at),
        Name(at.operand()),
        step.word,
        Name(step.hold),
        Name(step.wake),
        Name(step.next),
    )
}

// The row of each way that the step at the word `found` may go: a weak exchange may fail all the same, and
// of those asleep on the word of a wake of one there may be nobody.
fn word_rows<A: Position>(rt: &impl Print, at: A, found: u32) -> io::Result<()> {
    if at.weak_next() {
        row(rt, at, found, Way::Only)?;
        return row(rt, at, found, Way::Fails);
    }
    match at.decide(false, found, false).wake {
        Wake::One => {
            row(rt, at, found, Way::Nobody)?;
            row(rt, at, found, Way::Somebody)
        }
        Wake::None | Wake::All => row(rt, at, found, Way::Only),
    }
}

// The rows of a position at these words and, if it is a futex_wait, of where the call stands after that.
pub fn rows_at<A: Position>(rt: &impl Print, at: A, words: &[u32]) -> io::Result<()> {
    for found in words {
        word_rows(rt, at, *found)?;
    }
    if at.waits() {
        println!(rt; "{} woken: {}", Name(at), Name(at.after_wait()))?;
    }
    Ok(())
}

// All rows of a position, at the words of interest for the kind that its operation is about; none where there
// is no operation.
pub fn rows<A: Position>(rt: &impl Print, at: A) -> io::Result<()> {
    match at.operand() {
        Kind::Nothing => Ok(()),
        Kind::RwLock => rows_at(rt, at, &RWLOCK),
        _ => rows_at(rt, at, &SMALL),
    }
}

// The rows of a closure, which ends in one of three ways.
pub fn closing_rows(rt: &impl Print, at: OnceAt) -> io::Result<()> {
    for ending in [Ending::Returned, Ending::Poisoned, Ending::Panicked] {
        println!(rt;
            "{} {}: {}",
            Name(at),
            Name(ending),
            Name(once::close(ending, at))
        )?;
    }
    Ok(())
}
