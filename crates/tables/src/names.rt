// The names that the rows are made of.
use condvar::{CondvarAt, NotifyAt};
use mutex::{LockAt, MutexAt, UnlockAt};
use once::{CallAt, Ending, OnceAt};
use rwlock::{DowngradeAt, ReadAt, RwLockAt, TryAt, WakeAt, WriteAt};
use std::fmt;
use thread_parking::{ParkAt, ParkerAt, UnparkAt};
use words::{Hold, Kind, Next, Wake};

// What a row names: a position, by its call and its place in that, or a part of a step.
pub trait Named {
    fn name<W: fmt::Write>(&self, f: &mut fmt::Formatter<W>) -> fmt::Result;
}

// Shown by its name.
#[derive(Clone, Copy)]
pub struct Name<A>(pub A);

impl<A: Named> fmt::Display for Name<A> {
    fn fmt<W: fmt::Write>(&self, f: &mut fmt::Formatter<W>) -> fmt::Result {
        self.0.name(f)
    }
}

impl Named for Kind {
    fn name<W: fmt::Write>(&self, f: &mut fmt::Formatter<W>) -> fmt::Result {
        f.write_str(match self {
            Kind::Nothing => "nothing",
            Kind::Mutex => "mutex",
            Kind::RwLock => "rwlock",
            Kind::WriterNotify => "writer_notify",
            Kind::Condvar => "condvar",
            Kind::Once => "once",
            Kind::Parker => "parker",
        })
    }
}

// Where a hold stays as it is, and where nobody is woken, there is nothing to name; else a space comes first.
impl Named for Hold {
    fn name<W: fmt::Write>(&self, f: &mut fmt::Formatter<W>) -> fmt::Result {
        match self {
            Hold::Same => Ok(()),
            Hold::TakeMutex => f.write_str(" takes mutex"),
            Hold::FreeMutex => f.write_str(" frees mutex"),
            Hold::TakeRead => f.write_str(" takes read"),
            Hold::FreeRead => f.write_str(" frees read"),
            Hold::TakeWrite => f.write_str(" takes write"),
            Hold::FreeWrite => f.write_str(" frees write"),
            Hold::Downgrade => f.write_str(" turns write"),
        }
    }
}

impl Named for Wake {
    fn name<W: fmt::Write>(&self, f: &mut fmt::Formatter<W>) -> fmt::Result {
        match self {
            Wake::None => Ok(()),
            Wake::One => f.write_str(" wakes one"),
            Wake::All => f.write_str(" wakes all"),
        }
    }
}

impl Named for Ending {
    fn name<W: fmt::Write>(&self, f: &mut fmt::Formatter<W>) -> fmt::Result {
        f.write_str(match self {
            Ending::Returned => "returned",
            Ending::Poisoned => "poisoned",
            Ending::Panicked => "panicked",
        })
    }
}

// A flag of a place, with its space, where it is set.
fn flag(is_set: bool, name: &'static str) -> &'static str {
    if is_set { name } else { "" }
}

impl Named for LockAt {
    fn name<W: fmt::Write>(&self, f: &mut fmt::Formatter<W>) -> fmt::Result {
        match self {
            LockAt::Exchange => f.write_str("exchange"),
            LockAt::Spin { left } => write!(f, "spin {left}"),
            LockAt::ExchangeAgain => f.write_str("exchange-again"),
            LockAt::Swap => f.write_str("swap"),
            LockAt::Wait => f.write_str("wait"),
            LockAt::SpinAgain { left } => write!(f, "spin-again {left}"),
        }
    }
}

impl Named for UnlockAt {
    fn name<W: fmt::Write>(&self, f: &mut fmt::Formatter<W>) -> fmt::Result {
        f.write_str(match self {
            UnlockAt::Swap => "swap",
            UnlockAt::Wake => "wake",
        })
    }
}

impl Named for MutexAt {
    fn name<W: fmt::Write>(&self, f: &mut fmt::Formatter<W>) -> fmt::Result {
        match self {
            MutexAt::Lock { at } => write!(f, "mutex lock {}", Name(*at)),
            MutexAt::TryLock => f.write_str("mutex try_lock exchange"),
            MutexAt::Unlock { at } => write!(f, "mutex unlock {}", Name(*at)),
        }
    }
}

impl Named for ParkerAt {
    fn name<W: fmt::Write>(&self, f: &mut fmt::Formatter<W>) -> fmt::Result {
        match self {
            ParkerAt::Park { at } => {
                let place = match at {
                    ParkAt::Subtract => "subtract",
                    ParkAt::Wait => "wait",
                    ParkAt::Exchange => "exchange",
                };
                write!(f, "parker park {place}")
            }
            ParkerAt::Unpark { at, .. } => {
                let place = match at {
                    UnparkAt::Swap => "swap",
                    UnparkAt::Wake => "wake",
                };
                write!(f, "parker unpark {place}")
            }
        }
    }
}

// The mutex's unlock in a wait carries the sequence that is then waited on.
impl Named for condvar::WaitAt {
    fn name<W: fmt::Write>(&self, f: &mut fmt::Formatter<W>) -> fmt::Result {
        match self {
            condvar::WaitAt::Load => f.write_str("load"),
            condvar::WaitAt::Unlock { sequence, at } => {
                write!(f, "unlock {} {sequence:08X}", Name(*at))
            }
            condvar::WaitAt::Wait { sequence } => write!(f, "wait {sequence:08X}"),
            condvar::WaitAt::Relock { at } => write!(f, "relock {}", Name(*at)),
        }
    }
}

impl Named for CondvarAt {
    fn name<W: fmt::Write>(&self, f: &mut fmt::Formatter<W>) -> fmt::Result {
        match self {
            CondvarAt::Wait { at, .. } => write!(f, "condvar wait {}", Name(*at)),
            CondvarAt::Notify { all, at } => {
                let call = if *all { "notify_all" } else { "notify_one" };
                let place = match at {
                    NotifyAt::Add => "add",
                    NotifyAt::Wake => "wake",
                };
                write!(f, "condvar {call} {place}")
            }
        }
    }
}

impl Named for CallAt {
    fn name<W: fmt::Write>(&self, f: &mut fmt::Formatter<W>) -> fmt::Result {
        match self {
            CallAt::Load => f.write_str("load"),
            CallAt::ExchangeRunning { seen } => write!(f, "exchange-running {seen:08X}"),
            CallAt::Closure => f.write_str("closure"),
            CallAt::Swap { ending } => write!(f, "swap {}", Name(*ending)),
            CallAt::WakeAll { panicking } => {
                write!(f, "wake-all{}", flag(*panicking, " panicking"))
            }
            CallAt::ExchangeQueued { seen } => write!(f, "exchange-queued {seen:08X}"),
            CallAt::Wait { seen } => write!(f, "wait {seen:08X}"),
        }
    }
}

impl Named for once::WaitAt {
    fn name<W: fmt::Write>(&self, f: &mut fmt::Formatter<W>) -> fmt::Result {
        match self {
            once::WaitAt::Load => f.write_str("load"),
            once::WaitAt::ExchangeQueued { seen } => write!(f, "exchange-queued {seen:08X}"),
            once::WaitAt::Wait { seen } => write!(f, "wait {seen:08X}"),
        }
    }
}

impl Named for OnceAt {
    fn name<W: fmt::Write>(&self, f: &mut fmt::Formatter<W>) -> fmt::Result {
        match self {
            OnceAt::Call { ignores, at } => {
                write!(f, "once call{} {}", flag(*ignores, "_ignoring"), Name(*at))
            }
            OnceAt::Wait { ignores, at } => {
                write!(f, "once wait{} {}", flag(*ignores, "_ignoring"), Name(*at))
            }
            OnceAt::IsCompleted => f.write_str("once is_completed load"),
        }
    }
}

impl Named for ReadAt {
    fn name<W: fmt::Write>(&self, f: &mut fmt::Formatter<W>) -> fmt::Result {
        match self {
            ReadAt::Load => f.write_str("load"),
            ReadAt::Exchange { seen } => write!(f, "exchange {seen:08X}"),
            ReadAt::Spin { slept, left } => write!(f, "spin{} {left}", flag(*slept, " slept")),
            ReadAt::ExchangeContended { slept, seen } => {
                write!(f, "exchange-contended{} {seen:08X}", flag(*slept, " slept"))
            }
            ReadAt::SetWaiting { slept, seen } => {
                write!(f, "set-waiting{} {seen:08X}", flag(*slept, " slept"))
            }
            ReadAt::Wait { seen } => write!(f, "wait {seen:08X}"),
        }
    }
}

impl Named for TryAt {
    fn name<W: fmt::Write>(&self, f: &mut fmt::Formatter<W>) -> fmt::Result {
        match self {
            TryAt::Load => f.write_str("load"),
            TryAt::Exchange { seen } => write!(f, "exchange {seen:08X}"),
        }
    }
}

impl Named for WriteAt {
    fn name<W: fmt::Write>(&self, f: &mut fmt::Formatter<W>) -> fmt::Result {
        match self {
            WriteAt::Exchange => f.write_str("exchange"),
            WriteAt::Spin { others, left } => write!(f, "spin{} {left}", flag(*others, " others")),
            WriteAt::ExchangeContended { others, seen } => {
                write!(
                    f,
                    "exchange-contended{} {seen:08X}",
                    flag(*others, " others")
                )
            }
            WriteAt::SetWaiting { others, seen } => {
                write!(f, "set-waiting{} {seen:08X}", flag(*others, " others"))
            }
            WriteAt::LoadSequence => f.write_str("load-sequence"),
            WriteAt::LoadState { sequence } => write!(f, "load-state {sequence:08X}"),
            WriteAt::Wait { sequence } => write!(f, "wait {sequence:08X}"),
        }
    }
}

// What follows the subtraction of either unlock.
impl Named for WakeAt {
    fn name<W: fmt::Write>(&self, f: &mut fmt::Formatter<W>) -> fmt::Result {
        match self {
            WakeAt::ExchangeWriters => f.write_str("exchange-writers"),
            WakeAt::ExchangeBoth => f.write_str("exchange-both"),
            WakeAt::Notify { both } => write!(f, "notify{}", flag(*both, " both")),
            WakeAt::WakeWriter { both } => write!(f, "wake-writer{}", flag(*both, " both")),
            WakeAt::ExchangeReaders => f.write_str("exchange-readers"),
            WakeAt::WakeReaders => f.write_str("wake-readers"),
        }
    }
}

impl Named for RwLockAt {
    fn name<W: fmt::Write>(&self, f: &mut fmt::Formatter<W>) -> fmt::Result {
        match self {
            RwLockAt::Read { at } => write!(f, "rwlock read {}", Name(*at)),
            RwLockAt::TryRead { at } => write!(f, "rwlock try_read {}", Name(*at)),
            RwLockAt::ReadUnlock => f.write_str("rwlock read_unlock subtract"),
            RwLockAt::Write { at } => write!(f, "rwlock write {}", Name(*at)),
            RwLockAt::TryWrite { at } => write!(f, "rwlock try_write {}", Name(*at)),
            RwLockAt::WriteUnlock => f.write_str("rwlock write_unlock subtract"),
            RwLockAt::Wake { writer, at } => {
                let call = if *writer { "write" } else { "read" };
                write!(f, "rwlock {call}_unlock {}", Name(*at))
            }
            RwLockAt::Downgrade { at } => {
                let place = match at {
                    DowngradeAt::Add => "add",
                    DowngradeAt::Subtract => "subtract",
                    DowngradeAt::WakeReaders => "wake-readers",
                };
                write!(f, "rwlock downgrade {place}")
            }
        }
    }
}

// How a step ends.
impl<A: Named> Named for Next<A> {
    fn name<W: fmt::Write>(&self, f: &mut fmt::Formatter<W>) -> fmt::Result {
        match self {
            Next::Moved(at) => {
                f.write_str("moved ")?;
                at.name(f)
            }
            Next::Asleep => f.write_str("slept"),
            Next::Ended(value) => write!(f, "done {value}"),
            Next::Panics(panic) => write!(f, "panic {}", panic.number()),
            Next::Closure(_) => f.write_str("closure"),
        }
    }
}
