// The positions of the table, in its order. What they carry is such as the source's tests let come there.
use crate::rows::{WRITE_LOCKED, closing_rows, rows, rows_at};
use condvar::{CondvarAt, NotifyAt};
use mutex::{LockAt, MutexAt, UnlockAt};
use once::{CallAt, Ending, OnceAt};
use rwlock::{DowngradeAt, ReadAt, RwLockAt, TryAt, WakeAt, WriteAt};
use std::io;
use thread_parking::{ParkAt, ParkerAt, UnparkAt};
use words::OnceWord;

// A spin is shown at its start, one load before its last, and at its last.
const SPINS: [u8; 3] = [100, 1, 0];

const SEQUENCES: [u32; 2] = [0, 0xFFFF_FFFF];

// The places in the mutex's own lock, and in the one with which a condvar's wait ends.
const LOCK: [LockAt; 10] = [
    LockAt::Exchange,
    LockAt::Spin { left: 100 },
    LockAt::Spin { left: 1 },
    LockAt::Spin { left: 0 },
    LockAt::ExchangeAgain,
    LockAt::Swap,
    LockAt::Wait,
    LockAt::SpinAgain { left: 100 },
    LockAt::SpinAgain { left: 1 },
    LockAt::SpinAgain { left: 0 },
];

// The places after the subtraction of either unlock of an RwLock.
const WAKE: [WakeAt; 8] = [
    WakeAt::ExchangeWriters,
    WakeAt::ExchangeBoth,
    WakeAt::Notify { both: false },
    WakeAt::Notify { both: true },
    WakeAt::WakeWriter { both: false },
    WakeAt::WakeWriter { both: true },
    WakeAt::ExchangeReaders,
    WakeAt::WakeReaders,
];

pub fn mutex_positions(rt: &impl Print) -> io::Result<()> {
    for at in LOCK {
        rows(rt, MutexAt::Lock { at })?;
    }
    rows(rt, MutexAt::TryLock)?;
    for at in [UnlockAt::Swap, UnlockAt::Wake] {
        rows(rt, MutexAt::Unlock { at })?;
    }
    Ok(())
}

pub fn parker_positions(rt: &impl Print) -> io::Result<()> {
    for at in [ParkAt::Subtract, ParkAt::Wait, ParkAt::Exchange] {
        rows(rt, ParkerAt::Park { at })?;
    }
    for at in [UnparkAt::Swap, UnparkAt::Wake] {
        rows(rt, ParkerAt::Unpark { thread: 0, at })?;
    }
    Ok(())
}

pub fn condvar_positions(rt: &impl Print) -> io::Result<()> {
    let wait = |at| rows(rt, CondvarAt::Wait { mutex: 0, at });
    wait(condvar::WaitAt::Load)?;
    for at in [UnlockAt::Swap, UnlockAt::Wake] {
        for sequence in SEQUENCES {
            wait(condvar::WaitAt::Unlock { sequence, at })?;
        }
    }
    for sequence in SEQUENCES {
        wait(condvar::WaitAt::Wait { sequence })?;
    }
    for at in LOCK {
        wait(condvar::WaitAt::Relock { at })?;
    }
    for all in [false, true] {
        for at in [NotifyAt::Add, NotifyAt::Wake] {
            rows(rt, CondvarAt::Notify { all, at })?;
        }
    }
    Ok(())
}

// The positions of a call. Where it begins to run the closure is shown at each of these states.
fn call_positions(rt: &impl Print, ignores: bool, states: &[u32]) -> io::Result<()> {
    let call = |at| rows(rt, OnceAt::Call { ignores, at });
    call(CallAt::Load)?;
    for seen in states {
        call(CallAt::ExchangeRunning { seen: *seen })?;
    }
    let at = CallAt::Closure;
    closing_rows(rt, OnceAt::Call { ignores, at })?;
    for ending in [Ending::Returned, Ending::Poisoned, Ending::Panicked] {
        call(CallAt::Swap { ending })?;
    }
    for panicking in [false, true] {
        call(CallAt::WakeAll { panicking })?;
    }
    call(CallAt::ExchangeQueued { seen: 1 })?;
    call(CallAt::Wait { seen: 5 })
}

// The positions of a wait, which queues in each of these states.
fn once_wait_positions(rt: &impl Print, ignores: bool, states: &[u32]) -> io::Result<()> {
    let wait = |at| rows(rt, OnceAt::Wait { ignores, at });
    wait(once::WaitAt::Load)?;
    for seen in states {
        wait(once::WaitAt::ExchangeQueued { seen: *seen })?;
    }
    for seen in states {
        let seen = OnceWord::with_queued(*seen);
        wait(once::WaitAt::Wait { seen })?;
    }
    Ok(())
}

// Only what ignores poisoning goes on from a poisoned state.
pub fn once_positions(rt: &impl Print) -> io::Result<()> {
    call_positions(rt, false, &[3, 7])?;
    call_positions(rt, true, &[3, 7, 2, 6])?;
    once_wait_positions(rt, false, &[1, 3])?;
    once_wait_positions(rt, true, &[1, 3, 2])?;
    rows(rt, OnceAt::IsCompleted)
}

fn read_positions(rt: &impl Print) -> io::Result<()> {
    let read = |at| rows(rt, RwLockAt::Read { at });
    read(ReadAt::Load)?;
    for seen in [0, 1, 0x3FFF_FFFD] {
        read(ReadAt::Exchange { seen })?;
    }
    for slept in [false, true] {
        for left in SPINS {
            read(ReadAt::Spin { slept, left })?;
        }
    }
    for seen in [0, 1] {
        read(ReadAt::ExchangeContended { slept: false, seen })?;
    }
    // Only who has slept joins readers past a waiting writer.
    for seen in [0, 1, 0x8000_0001] {
        read(ReadAt::ExchangeContended { slept: true, seen })?;
    }
    for seen in [0x3FFF_FFFF, 0x8000_0000, 0x8000_0001, 0xBFFF_FFFF] {
        read(ReadAt::SetWaiting { slept: false, seen })?;
    }
    for seen in [0x3FFF_FFFF, 0x8000_0000, 0xBFFF_FFFF] {
        read(ReadAt::SetWaiting { slept: true, seen })?;
    }
    for seen in [0x4000_0000, 0x7FFF_FFFF, 0xC000_0001] {
        read(ReadAt::Wait { seen })?;
    }
    Ok(())
}

fn write_positions(rt: &impl Print) -> io::Result<()> {
    let write = |at| rows(rt, RwLockAt::Write { at });
    write(WriteAt::Exchange)?;
    for others in [false, true] {
        for left in SPINS {
            write(WriteAt::Spin { others, left })?;
        }
    }
    for others in [false, true] {
        for seen in [0, 0x4000_0000, 0x8000_0000, 0xC000_0000] {
            write(WriteAt::ExchangeContended { others, seen })?;
        }
    }
    for others in [false, true] {
        for seen in [1, 0x3FFF_FFFF, 0x4000_0001] {
            write(WriteAt::SetWaiting { others, seen })?;
        }
    }
    write(WriteAt::LoadSequence)?;
    for sequence in SEQUENCES {
        write(WriteAt::LoadState { sequence })?;
    }
    for sequence in SEQUENCES {
        write(WriteAt::Wait { sequence })?;
    }
    Ok(())
}

// The positions of try_read or of try_write, whose exchange is shown at each of these states.
fn try_positions<F: Fn(TryAt) -> RwLockAt>(
    rt: &impl Print,
    call: F,
    states: &[u32],
) -> io::Result<()>
    requires { F.IsAlwaysCallable call }
{
    rows(rt, call(TryAt::Load))?;
    for seen in states {
        rows(rt, call(TryAt::Exchange { seen: *seen }))?;
    }
    Ok(())
}

pub fn rwlock_positions(rt: &impl Print) -> io::Result<()> {
    read_positions(rt)?;
    try_positions(rt, |at| RwLockAt::TryRead { at }, &[0, 1, 0x3FFF_FFFD])?;
    write_positions(rt)?;
    try_positions(
        rt,
        |at| RwLockAt::TryWrite { at },
        &[0, 0x4000_0000, 0xC000_0000],
    )?;
    rows(rt, RwLockAt::ReadUnlock)?;
    // At other states the source's assertion that the lock is unlocked now may fire.
    rows_at(rt, RwLockAt::WriteUnlock, &WRITE_LOCKED)?;
    for writer in [false, true] {
        for at in WAKE {
            rows(rt, RwLockAt::Wake { writer, at })?;
        }
    }
    for at in [
        DowngradeAt::Add,
        DowngradeAt::Subtract,
        DowngradeAt::WakeReaders,
    ] {
        rows(rt, RwLockAt::Downgrade { at })?;
    }
    Ok(())
}
