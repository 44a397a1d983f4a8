// Clause 7 of soundness: a thread still before the operation that frees or downgrades has that hold.
use crate::calling::Start;
use crate::holds::Holding::*;
use crate::lines;
use crate::places::Inside;
use crate::places::Place::*;
use crate::records::Record;
use calls::Call::*;
use std::io;

const STARTS: [Start; 18] = [
    Start(Unlock, 0, None, MutexHeld(0)),
    Start(Unlock, 0, None, NothingHeld),
    Start(Unlock, 0, None, MutexHeldByAnother(0)),
    Start(Unlock, 0, None, MutexHeld(1)),
    Start(ReadUnlock, 0, None, ReadHeld),
    Start(ReadUnlock, 0, None, NothingHeld),
    Start(ReadUnlock, 0, None, ReadForgotten),
    Start(ReadUnlock, 0, None, WriteHeld),
    Start(WriteUnlock, 0, None, WriteHeld),
    Start(WriteUnlock, 0, None, NothingHeld),
    Start(WriteUnlock, 0, None, ReadHeld),
    Start(Downgrade, 0, None, WriteHeld),
    Start(Downgrade, 0, None, NothingHeld),
    Start(Downgrade, 0, None, ReadHeld),
    Start(CondvarWait, 0, Some(0), MutexHeld(0)),
    Start(CondvarWait, 0, Some(0), NothingHeld),
    Start(CondvarWait, 0, Some(0), MutexHeld(1)),
    Start(CondvarWait, 0, Some(1), MutexHeld(1)),
];

// Further on in the same calls, with nothing held: only a Condvar wait before its swap needs the hold.
const AFTER: [Inside; 4] = [
    Inside(UnlockWakes, 1),
    Inside(CondvarWaitUnlocksFrom, 0),
    Inside(CondvarWaitWaitsOn, 0),
    Inside(DowngradeSubtracts, 0),
];

pub fn lines(rt: &impl Print) -> io::Result<()> {
    for case in &STARTS {
        lines::print(rt, "needs", case, case.world(), Record::step(0))?;
    }
    for case in &AFTER {
        lines::print(rt, "after", case, case.awake(), Record::step(0))?;
    }
    Ok(())
}
