// Positions inside calls on object 0, with the value that they carry.
use crate::forge::{self, Forge};
use crate::shown::Number;
use calls::At;
use condvar::CondvarAt;
use mutex::{LockAt, MutexAt, UnlockAt};
use once::{CallAt, OnceAt};
use rwlock::{DowngradeAt, ReadAt, RwLockAt, TryAt, WriteAt};
use std::fmt;
use thread_parking::{ParkAt, ParkerAt};
use world::World;

#[derive(Clone, Copy)]
pub enum Place {
    LockSpins,
    LockSpinsAgain,
    LockWaitsOn,
    UnlockWakes,
    CondvarWaitUnlocksFrom,
    CondvarWaitWaitsOn,
    CondvarWaitLockSpins,
    CondvarWaitLockSpinsAgain,
    CondvarWaitLockWaitsOn,
    ReadSpins,
    ReadSpinsAgain,
    ReadLocks,
    ReadLocksAfterSpin,
    ReadLocksAfterSleep,
    ReadFlags,
    ReadFlagsAfterSleep,
    ReadWaitsOn,
    TryReadLocks,
    TryWriteLocks,
    WriteSpins,
    WriteSpinsAgain,
    WriteLocks,
    WriteFlags,
    WriteWaitsOn,
    DowngradeSubtracts,
    OnceCallRunsFrom,
    OnceCallForceRunsFrom,
    OnceCallQueuesFrom,
    OnceCallWaitsOn,
    OnceWaitQueuesFrom,
    OnceWaitForceQueuesFrom,
    OnceWaitWaitsOn,
    InClosureOf,
    Idle,
    ParkWaitsOn,
    ParkExchanges,
}

impl fmt::Display for Place {
    fn fmt<W: fmt::Write>(&self, f: &mut fmt::Formatter<W>) -> fmt::Result {
        f.write_str(match self {
            Place::LockSpins => "lock spins",
            Place::LockSpinsAgain => "lock spins again",
            Place::LockWaitsOn => "lock waits on",
            Place::UnlockWakes => "unlock wakes",
            Place::CondvarWaitUnlocksFrom => "Condvar wait unlocks from",
            Place::CondvarWaitWaitsOn => "Condvar wait waits on",
            Place::CondvarWaitLockSpins => "Condvar wait's lock spins",
            Place::CondvarWaitLockSpinsAgain => "Condvar wait's lock spins again",
            Place::CondvarWaitLockWaitsOn => "Condvar wait's lock waits on",
            Place::ReadSpins => "read spins",
            Place::ReadSpinsAgain => "read spins again",
            Place::ReadLocks => "read locks",
            Place::ReadLocksAfterSpin => "read locks after a spin",
            Place::ReadLocksAfterSleep => "read locks after a sleep",
            Place::ReadFlags => "read flags",
            Place::ReadFlagsAfterSleep => "read flags after a sleep",
            Place::ReadWaitsOn => "read waits on",
            Place::TryReadLocks => "try_read locks",
            Place::TryWriteLocks => "try_write locks",
            Place::WriteSpins => "write spins",
            Place::WriteSpinsAgain => "write spins again",
            Place::WriteLocks => "write locks",
            Place::WriteFlags => "write flags",
            Place::WriteWaitsOn => "write waits on",
            Place::DowngradeSubtracts => "downgrade subtracts",
            Place::OnceCallRunsFrom => "Once call runs from",
            Place::OnceCallForceRunsFrom => "Once call, poison ignored, runs from",
            Place::OnceCallQueuesFrom => "Once call queues from",
            Place::OnceCallWaitsOn => "Once call waits on",
            Place::OnceWaitQueuesFrom => "Once wait queues from",
            Place::OnceWaitForceQueuesFrom => "Once wait, poison ignored, queues from",
            Place::OnceWaitWaitsOn => "Once wait waits on",
            Place::InClosureOf => "in a closure of",
            Place::Idle => "idle",
            Place::ParkWaitsOn => "park waits on",
            Place::ParkExchanges => "park exchanges",
        })
    }
}

fn lock(at: LockAt) -> At {
    At::Mutex {
        mutex: 0,
        at: MutexAt::Lock { at },
    }
}

fn wait(at: condvar::WaitAt) -> At {
    At::Condvar {
        condvar: 0,
        at: CondvarAt::Wait { mutex: 0, at },
    }
}

fn relock(at: LockAt) -> At {
    wait(condvar::WaitAt::Relock { at })
}

fn rwlock(at: RwLockAt) -> At {
    At::RwLock { lock: 0, at }
}

fn read(at: ReadAt) -> At {
    rwlock(RwLockAt::Read { at })
}

fn write(at: WriteAt) -> At {
    rwlock(RwLockAt::Write { at })
}

fn once_call(ignores: bool, at: CallAt) -> At {
    At::Once {
        once: 0,
        at: OnceAt::Call { ignores, at },
    }
}

fn once_wait(ignores: bool, at: once::WaitAt) -> At {
    At::Once {
        once: 0,
        at: OnceAt::Wait { ignores, at },
    }
}

fn park(at: ParkAt) -> At {
    At::Parker {
        at: ParkerAt::Park { at },
    }
}

impl Place {
    // The position with this value; `left`, the spins that a position has left, is the value's low byte.
    pub fn with(self, value: u32) -> At {
        let left = (value % 256) as u8;
        let seen = value;
        let sequence = value;
        match self {
            Place::LockSpins => lock(LockAt::Spin { left }),
            Place::LockSpinsAgain => lock(LockAt::SpinAgain { left }),
            Place::LockWaitsOn => lock(LockAt::Wait),
            Place::UnlockWakes => At::Mutex {
                mutex: 0,
                at: MutexAt::Unlock { at: UnlockAt::Wake },
            },
            Place::CondvarWaitUnlocksFrom => wait(condvar::WaitAt::Unlock {
                sequence,
                at: UnlockAt::Swap,
            }),
            Place::CondvarWaitWaitsOn => wait(condvar::WaitAt::Wait { sequence }),
            Place::CondvarWaitLockSpins => relock(LockAt::Spin { left }),
            Place::CondvarWaitLockSpinsAgain => relock(LockAt::SpinAgain { left }),
            Place::CondvarWaitLockWaitsOn => relock(LockAt::Wait),
            Place::ReadSpins => read(ReadAt::Spin { slept: false, left }),
            Place::ReadSpinsAgain => read(ReadAt::Spin { slept: true, left }),
            Place::ReadLocks => read(ReadAt::Exchange { seen }),
            Place::ReadLocksAfterSpin => read(ReadAt::ExchangeContended { slept: false, seen }),
            Place::ReadLocksAfterSleep => read(ReadAt::ExchangeContended { slept: true, seen }),
            Place::ReadFlags => read(ReadAt::SetWaiting { slept: false, seen }),
            Place::ReadFlagsAfterSleep => read(ReadAt::SetWaiting { slept: true, seen }),
            Place::ReadWaitsOn => read(ReadAt::Wait { seen }),
            Place::TryReadLocks => rwlock(RwLockAt::TryRead {
                at: TryAt::Exchange { seen },
            }),
            Place::TryWriteLocks => rwlock(RwLockAt::TryWrite {
                at: TryAt::Exchange { seen },
            }),
            Place::WriteSpins => write(WriteAt::Spin {
                others: false,
                left,
            }),
            Place::WriteSpinsAgain => write(WriteAt::Spin { others: true, left }),
            Place::WriteLocks => write(WriteAt::ExchangeContended {
                others: false,
                seen,
            }),
            Place::WriteFlags => write(WriteAt::SetWaiting {
                others: false,
                seen,
            }),
            Place::WriteWaitsOn => write(WriteAt::Wait { sequence }),
            Place::DowngradeSubtracts => rwlock(RwLockAt::Downgrade {
                at: DowngradeAt::Subtract,
            }),
            Place::OnceCallRunsFrom => once_call(false, CallAt::ExchangeRunning { seen }),
            Place::OnceCallForceRunsFrom => { once_call(true, CallAt::ExchangeRunning { seen }) }
            Place::OnceCallQueuesFrom => once_call(false, CallAt::ExchangeQueued { seen }),
            Place::OnceCallWaitsOn => once_call(false, CallAt::Wait { seen }),
            Place::OnceWaitQueuesFrom => once_wait(false, once::WaitAt::ExchangeQueued { seen }),
            Place::OnceWaitForceQueuesFrom => {
                once_wait(true, once::WaitAt::ExchangeQueued { seen })
            }
            Place::OnceWaitWaitsOn => once_wait(false, once::WaitAt::Wait { seen }),
            Place::InClosureOf => once_call(false, CallAt::Closure),
            Place::Idle => At::Idle,
            Place::ParkWaitsOn => park(ParkAt::Wait),
            Place::ParkExchanges => park(ParkAt::Exchange),
        }
    }
}

// A position and its value: thread 0 stands there, and holds nothing.
#[derive(Clone, Copy)]
pub struct Inside(pub Place, pub u32);

impl Inside {
    pub fn awake(self) -> World {
        let Inside(place, value) = self;
        forge::fresh(true).stands(0, place.with(value))
    }

    pub fn asleep(self) -> World {
        let Inside(place, value) = self;
        forge::fresh(true).sleeps(place.with(value))
    }
}

impl fmt::Display for Inside {
    fn fmt<W: fmt::Write>(&self, f: &mut fmt::Formatter<W>) -> fmt::Result {
        let Inside(place, value) = *self;
        write!(f, "{place} {}", Number(value))
    }
}
