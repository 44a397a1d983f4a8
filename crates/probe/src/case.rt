// A case: the world that its bytes say, whatever they are, and what is to be done to it.
use crate::bytes::{Case, Digits, Stored};
use crate::record::RECORD;
use acts::Fields;
use calls::{RWLOCKS, WORDS};
use queue::{Row, THREADS};
use world::{LOCK_HOLDS, MUTEX_HOLDS, World};

// The bytes of the words, of a hold of each thread on each mutex and each lock, of the counts of reads, and of the
// forgotten ones.
const HOLDS: usize = WORDS * 4 + MUTEX_HOLDS + LOCK_HOLDS * 5 + RWLOCKS * 4;

// The bytes of the records, of the row of sleepers with its count, and of the last flag.
const SLEEPERS: usize = THREADS * RECORD + THREADS + 8 + 1;

const DEED: usize = 9;

// The bytes of a world, and of a case.
pub const WORLD: usize = HOLDS + SLEEPERS;

pub const CASE: usize = WORLD + DEED;

// What is to be done: an act, or a thread run alone.
#[derive(Clone, Copy)]
pub enum Deed {
    Act(Fields),
    Solo { thread: u8, budget: u16 },
}

impl Deed {
    pub fn take(case: &mut Case<'_>) -> Deed {
        let [alone] = case.bytes::<1>();
        if is_yes(alone) {
            let [thread, low, high] = case.bytes::<3>();
            return Deed::Solo {
                thread,
                budget: u16::from_le_bytes([low, high]),
            };
        }
        let [act, choice, thread, object] = case.bytes::<4>();
        Deed::Act(Fields {
            act,
            choice,
            thread,
            object,
            value: case.take(),
        })
    }
}

// Any byte but 0 is a yes.
pub fn is_yes(byte: u8) -> bool {
    byte != 0
}

impl Stored for Row {
    fn take(case: &mut Case<'_>) -> Row {
        Row {
            places: case.bytes(),
            count: usize::from_le_bytes(case.bytes()),
        }
    }

    fn lay(&self, digits: &mut Digits) {
        digits.lay(self.places);
        digits.lay(self.count.to_le_bytes());
    }
}

impl Stored for World {
    fn take(case: &mut Case<'_>) -> World {
        World {
            words: case.take(),
            locked: case.bytes().map(is_yes),
            written: case.bytes().map(is_yes),
            reads: case.take(),
            forgotten: case.take(),
            threads: case.take(),
            sleepers: case.take(),
            started: is_yes(case.bytes::<1>()[0]),
        }
    }

    fn lay(&self, digits: &mut Digits) {
        self.words.lay(digits);
        digits.lay(self.locked.map(u8::from));
        digits.lay(self.written.map(u8::from));
        self.reads.lay(digits);
        self.forgotten.lay(digits);
        self.threads.lay(digits);
        self.sleepers.lay(digits);
        digits.lay([u8::from(self.started)]);
    }
}
