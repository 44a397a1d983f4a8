// Clause 2 of soundness: the values at a position have passed the source's tests that lead there. All words are as in
// a fresh world, so that an exchange of another value fails, and a wait on another value does not sleep.
use crate::lines;
use crate::places::Inside;
use crate::places::Place::*;
use crate::records::Record;
use std::io;

// At most 100.
const SPINS: [Inside; 18] = [
    Inside(LockSpins, 100),
    Inside(LockSpins, 101),
    Inside(LockSpins, 255),
    Inside(LockSpinsAgain, 100),
    Inside(LockSpinsAgain, 101),
    Inside(LockSpinsAgain, 255),
    Inside(CondvarWaitLockSpins, 100),
    Inside(CondvarWaitLockSpins, 101),
    Inside(CondvarWaitLockSpinsAgain, 100),
    Inside(CondvarWaitLockSpinsAgain, 255),
    Inside(ReadSpins, 100),
    Inside(ReadSpins, 101),
    Inside(ReadSpinsAgain, 100),
    Inside(ReadSpinsAgain, 255),
    Inside(WriteSpins, 100),
    Inside(WriteSpins, 101),
    Inside(WriteSpinsAgain, 100),
    Inside(WriteSpinsAgain, 255),
];

// Values 0 to 7, of the states that go on to the position, with QUEUED or without as the position has it.
const ONCES: [Inside; 26] = [
    Inside(OnceCallRunsFrom, 3),
    Inside(OnceCallRunsFrom, 7),
    Inside(OnceCallRunsFrom, 8),
    Inside(OnceCallRunsFrom, 0xFFFF_FFFF),
    Inside(OnceCallRunsFrom, 0),
    Inside(OnceCallRunsFrom, 1),
    Inside(OnceCallRunsFrom, 2),
    Inside(OnceCallForceRunsFrom, 2),
    Inside(OnceCallForceRunsFrom, 6),
    Inside(OnceCallForceRunsFrom, 10),
    Inside(OnceCallQueuesFrom, 1),
    Inside(OnceCallQueuesFrom, 9),
    Inside(OnceCallQueuesFrom, 3),
    Inside(OnceCallQueuesFrom, 5),
    Inside(OnceCallWaitsOn, 5),
    Inside(OnceCallWaitsOn, 1),
    Inside(OnceCallWaitsOn, 13),
    Inside(OnceWaitQueuesFrom, 3),
    Inside(OnceWaitQueuesFrom, 8),
    Inside(OnceWaitQueuesFrom, 0),
    Inside(OnceWaitQueuesFrom, 2),
    Inside(OnceWaitForceQueuesFrom, 2),
    Inside(OnceWaitWaitsOn, 7),
    Inside(OnceWaitWaitsOn, 8),
    Inside(OnceWaitWaitsOn, 3),
    Inside(OnceWaitWaitsOn, 4),
];

// States that a reader would lock, flag or wait on there. MAX_READERS is neither: it panics.
const READS: [Inside; 20] = [
    Inside(ReadLocks, 0),
    Inside(ReadLocks, 0x3FFF_FFFD),
    Inside(ReadLocks, 0x3FFF_FFFE),
    Inside(ReadLocks, 0x4000_0000),
    Inside(ReadLocks, 0x8000_0000),
    Inside(ReadLocksAfterSpin, 0x3FFF_FFFD),
    Inside(ReadLocksAfterSpin, 0x8000_0001),
    Inside(ReadLocksAfterSleep, 0x8000_0001),
    Inside(ReadLocksAfterSleep, 0x8000_0000),
    Inside(ReadLocksAfterSleep, 0xC000_0001),
    Inside(ReadFlags, 0x8000_0001),
    Inside(ReadFlags, 0x3FFF_FFFF),
    Inside(ReadFlags, 0x3FFF_FFFE),
    Inside(ReadFlags, 0x7FFF_FFFF),
    Inside(ReadFlags, 0),
    Inside(ReadFlagsAfterSleep, 0x3FFF_FFFF),
    Inside(ReadFlagsAfterSleep, 0x8000_0001),
    Inside(ReadWaitsOn, 0x7FFF_FFFF),
    Inside(ReadWaitsOn, 0x3FFF_FFFF),
    Inside(ReadWaitsOn, 0x7FFF_FFFE),
];

// So too of a try and of a writer.
const WRITES: [Inside; 9] = [
    Inside(TryReadLocks, 0),
    Inside(TryReadLocks, 0x3FFF_FFFE),
    Inside(TryWriteLocks, 0x8000_0000),
    Inside(TryWriteLocks, 1),
    Inside(WriteLocks, 0xC000_0000),
    Inside(WriteLocks, 1),
    Inside(WriteFlags, 1),
    Inside(WriteFlags, 0),
    Inside(WriteFlags, 0x8000_0001),
];

// A step whose weak exchange is to fail, where one is next and where none is.
const FAILING: [Inside; 15] = [
    Inside(LockSpins, 100),
    Inside(ReadSpins, 100),
    Inside(ReadLocks, 0),
    Inside(ReadLocksAfterSpin, 0),
    Inside(ReadFlags, 0x3FFF_FFFF),
    Inside(ReadWaitsOn, 0x7FFF_FFFF),
    Inside(TryReadLocks, 0),
    Inside(TryWriteLocks, 0),
    Inside(WriteLocks, 0),
    Inside(WriteFlags, 1),
    Inside(OnceCallRunsFrom, 3),
    Inside(OnceCallQueuesFrom, 1),
    Inside(OnceCallWaitsOn, 5),
    Inside(OnceWaitQueuesFrom, 3),
    Inside(ParkExchanges, 1),
];

pub fn lines(rt: &impl Print) -> io::Result<()> {
    for cases in [
        SPINS.as_slice(),
        ONCES.as_slice(),
        READS.as_slice(),
        WRITES.as_slice(),
    ] {
        for case in cases {
            lines::print(rt, "values", case, case.awake(), Record::step(0))?;
        }
    }
    Ok(())
}

pub fn failing_lines(rt: &impl Print) -> io::Result<()> {
    for case in &FAILING {
        lines::print(rt, "failing", case, case.awake(), Record::failing_step(0))?;
    }
    Ok(())
}
