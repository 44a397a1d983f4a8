// Clause 1 of soundness: every index exists. Objects go to 3, threads to 31.
use crate::calling::Start;
use crate::holds::Holding::*;
use crate::lines;
use crate::records::Record;
use calls::Call::*;
use std::io;

const CASES: [Start; 21] = [
    Start(Lock, 3, None, NothingHeld),
    Start(Lock, 4, None, NothingHeld),
    Start(Lock, 255, None, NothingHeld),
    Start(Unlock, 4, None, MutexHeld(0)),
    Start(Read, 3, None, NothingHeld),
    Start(Read, 4, None, NothingHeld),
    Start(Read, 255, None, NothingHeld),
    Start(ReadUnlock, 4, None, ReadHeld),
    Start(NotifyOne, 3, None, NothingHeld),
    Start(NotifyOne, 4, None, NothingHeld),
    Start(NotifyOne, 255, None, NothingHeld),
    Start(CondvarWait, 3, Some(3), MutexHeld(3)),
    Start(CondvarWait, 4, Some(3), MutexHeld(3)),
    Start(CondvarWait, 3, Some(4), MutexHeld(3)),
    Start(CondvarWait, 3, Some(255), MutexHeld(3)),
    Start(IsCompleted, 3, None, NothingHeld),
    Start(IsCompleted, 4, None, NothingHeld),
    Start(IsCompleted, 255, None, NothingHeld),
    Start(Unpark, 31, None, NothingHeld),
    Start(Unpark, 32, None, NothingHeld),
    Start(Unpark, 255, None, NothingHeld),
];

pub fn lines(rt: &impl Print) -> io::Result<()> {
    for case in &CASES {
        lines::print(rt, "names", case, case.world(), Record::step(0))?;
    }
    Ok(())
}
