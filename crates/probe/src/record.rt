// A thread's record as the bytes of a case have it, and the positions that its numbers say. docs/PROBE.md has
// the table of positions, in the order in which they stand here.
ghost use Rattle.std.specs.Prelude.{◌<◌};

use crate::bytes::{Case, Digits, Stored};
use crate::case::is_yes;
use calls::{At, Thread};
use condvar::{CondvarAt, NotifyAt};
use mutex::{LockAt, MutexAt, UnlockAt};
use once::{CallAt, Ending, OnceAt};
use rwlock::{DowngradeAt, ReadAt, RwLockAt, TryAt, WakeAt, WriteAt};
use thread_parking::{ParkAt, ParkerAt, UnparkAt};

// The bytes of a record.
pub const RECORD: usize = 12;

// A slot for each value that some position carries. In a record that is made from a thread, the slots that its
// position does not carry are 0.
#[derive(Clone, Copy, Default)]
struct Record {
    position: u8,
    asleep: bool,
    // the mutex, lock, condvar or Once of the call; the thread of an unpark
    object: u8,
    // the mutex of a condvar wait
    mutex: u8,
    // the spins to go
    left: u8,
    // `ignores` of a Once's call, `writer` of wake_writer_or_readers
    call_flag: bool,
    // `slept`, `others`, `both`, `panicking`
    place_flag: bool,
    ending: u8,
    // the state or the sequence seen
    word: u32,
}

impl Stored for Record {
    fn take(case: &mut Case<'_>) -> Record {
        let [
            position,
            asleep,
            object,
            mutex,
            left,
            call_flag,
            place_flag,
            ending,
        ] = case.bytes::<8>();
        Record {
            position,
            asleep: is_yes(asleep),
            object,
            mutex,
            left,
            call_flag: is_yes(call_flag),
            place_flag: is_yes(place_flag),
            ending,
            word: case.take(),
        }
    }

    fn lay(&self, digits: &mut Digits) {
        digits.lay([
            self.position,
            u8::from(self.asleep),
            self.object,
            self.mutex,
            self.left,
            u8::from(self.call_flag),
            u8::from(self.place_flag),
            self.ending,
        ]);
        self.word.lay(digits);
    }
}

impl Stored for Thread {
    fn take(case: &mut Case<'_>) -> Thread {
        let record: Record = case.take();
        Thread {
            at: At::from(record),
            asleep: record.asleep,
        }
    }

    fn lay(&self, digits: &mut Digits) {
        let record = Record {
            asleep: self.asleep,
            ..Record::from(self.at)
        };
        record.lay(digits);
    }
}

// The position that a record says. Slots that it does not carry are not looked at; a number that no position has
// is idle.
impl From<Record> for At {
    fn from(record: Record) -> At {
        let Record {
            object,
            left,
            call_flag: ignores,
            place_flag: flag,
            word: seen,
            ..
        } = record;
        let writer = ignores;
        let sequence = seen;
        let mutex = |at| At::Mutex { mutex: object, at };
        let lock = |at| mutex(MutexAt::Lock { at });
        let parker = |at| At::Parker { at };
        let park = |at| parker(ParkerAt::Park { at });
        let unpark = |at| parker(ParkerAt::Unpark { thread: object, at });
        let condvar = |at| At::Condvar {
            condvar: object,
            at,
        };
        let wait = |at| condvar(CondvarAt::Wait {
            mutex: record.mutex,
            at,
        });
        let relock = |at| wait(condvar::WaitAt::Relock { at });
        let notify = |all, at| condvar(CondvarAt::Notify { all, at });
        let once = |at| At::Once { once: object, at };
        let call = |at| once(OnceAt::Call { ignores, at });
        let once_wait = |at| once(OnceAt::Wait { ignores, at });
        let rwlock = |at| At::RwLock { lock: object, at };
        let read = |at| rwlock(RwLockAt::Read { at });
        let try_read = |at| rwlock(RwLockAt::TryRead { at });
        let write = |at| rwlock(RwLockAt::Write { at });
        let try_write = |at| rwlock(RwLockAt::TryWrite { at });
        let wake = |at| rwlock(RwLockAt::Wake { writer, at });
        let downgrade = |at| rwlock(RwLockAt::Downgrade { at });
        match record.position {
            1 => lock(LockAt::Exchange),
            2 => lock(LockAt::Spin { left }),
            3 => lock(LockAt::ExchangeAgain),
            4 => lock(LockAt::Swap),
            5 => lock(LockAt::Wait),
            6 => lock(LockAt::SpinAgain { left }),
            7 => mutex(MutexAt::TryLock),
            8 => mutex(MutexAt::Unlock { at: UnlockAt::Swap }),
            9 => mutex(MutexAt::Unlock { at: UnlockAt::Wake }),
            10 => park(ParkAt::Subtract),
            11 => park(ParkAt::Wait),
            12 => park(ParkAt::Exchange),
            13 => unpark(UnparkAt::Swap),
            14 => unpark(UnparkAt::Wake),
            15 => wait(condvar::WaitAt::Load),
            16 => wait(condvar::WaitAt::Unlock {
                sequence,
                at: UnlockAt::Swap,
            }),
            17 => wait(condvar::WaitAt::Unlock {
                sequence,
                at: UnlockAt::Wake,
            }),
            18 => wait(condvar::WaitAt::Wait { sequence }),
            19 => relock(LockAt::Exchange),
            20 => relock(LockAt::Spin { left }),
            21 => relock(LockAt::ExchangeAgain),
            22 => relock(LockAt::Swap),
            23 => relock(LockAt::Wait),
            24 => relock(LockAt::SpinAgain { left }),
            25 => notify(false, NotifyAt::Add),
            26 => notify(false, NotifyAt::Wake),
            27 => notify(true, NotifyAt::Add),
            28 => notify(true, NotifyAt::Wake),
            29 => call(CallAt::Load),
            30 => call(CallAt::ExchangeRunning { seen }),
            31 => call(CallAt::Closure),
            32 => call(CallAt::Swap {
                ending: acts::ending(record.ending),
            }),
            33 => call(CallAt::WakeAll { panicking: flag }),
            34 => call(CallAt::ExchangeQueued { seen }),
            35 => call(CallAt::Wait { seen }),
            36 => once_wait(once::WaitAt::Load),
            37 => once_wait(once::WaitAt::ExchangeQueued { seen }),
            38 => once_wait(once::WaitAt::Wait { seen }),
            39 => once(OnceAt::IsCompleted),
            40 => read(ReadAt::Load),
            41 => read(ReadAt::Exchange { seen }),
            42 => read(ReadAt::Spin { slept: flag, left }),
            43 => read(ReadAt::ExchangeContended { slept: flag, seen }),
            44 => read(ReadAt::SetWaiting { slept: flag, seen }),
            45 => read(ReadAt::Wait { seen }),
            46 => try_read(TryAt::Load),
            47 => try_read(TryAt::Exchange { seen }),
            48 => write(WriteAt::Exchange),
            49 => write(WriteAt::Spin { others: flag, left }),
            50 => write(WriteAt::ExchangeContended { others: flag, seen }),
            51 => write(WriteAt::SetWaiting { others: flag, seen }),
            52 => write(WriteAt::LoadSequence),
            53 => write(WriteAt::LoadState { sequence }),
            54 => write(WriteAt::Wait { sequence }),
            55 => try_write(TryAt::Load),
            56 => try_write(TryAt::Exchange { seen }),
            57 => rwlock(RwLockAt::ReadUnlock),
            58 => rwlock(RwLockAt::WriteUnlock),
            59 => wake(WakeAt::ExchangeWriters),
            60 => wake(WakeAt::ExchangeBoth),
            61 => wake(WakeAt::Notify { both: flag }),
            62 => wake(WakeAt::WakeWriter { both: flag }),
            63 => wake(WakeAt::ExchangeReaders),
            64 => wake(WakeAt::WakeReaders),
            65 => downgrade(DowngradeAt::Add),
            66 => downgrade(DowngradeAt::Subtract),
            67 => downgrade(DowngradeAt::WakeReaders),
            _ => At::Idle,
        }
    }
}

impl Record {
    fn object(self, object: u8) -> Record {
        Record { object, ..self }
    }

    fn mutex(self, mutex: u8) -> Record {
        Record { mutex, ..self }
    }

    fn left(self, left: u8) -> Record {
        Record { left, ..self }
    }

    fn call_flag(self, call_flag: bool) -> Record {
        Record { call_flag, ..self }
    }

    fn place_flag(self, place_flag: bool) -> Record {
        Record { place_flag, ..self }
    }

    fn word(self, word: u32) -> Record {
        Record { word, ..self }
    }
}

// The record of a position that carries nothing.
fn at(position: u8) -> Record {
    Record {
        position,
        ..Record::default()
    }
}

impl From<At> for Record {
    fn from(place: At) -> Record {
        match place {
            At::Idle => at(0),
            At::Mutex { mutex, at } => Record::from(at).object(mutex),
            At::RwLock { lock, at } => Record::from(at).object(lock),
            At::Condvar { condvar, at } => Record::from(at).object(condvar),
            At::Once { once, at } => Record::from(at).object(once),
            At::Parker { at } => Record::from(at),
        }
    }
}

// In lock: the mutex's own, or the one with which a wait ends. `first` is the number of its first position.
fn lock(first: u8, place: LockAt) -> Record
    requires { first < 64 }
{
    match place {
        LockAt::Exchange => at(first),
        LockAt::Spin { left } => at(first + 1).left(left),
        LockAt::ExchangeAgain => at(first + 2),
        LockAt::Swap => at(first + 3),
        LockAt::Wait => at(first + 4),
        LockAt::SpinAgain { left } => at(first + 5).left(left),
    }
}

fn unlock(first: u8, place: UnlockAt) -> Record
    requires { first < 64 }
{
    match place {
        UnlockAt::Swap => at(first),
        UnlockAt::Wake => at(first + 1),
    }
}

impl From<MutexAt> for Record {
    fn from(place: MutexAt) -> Record {
        match place {
            MutexAt::Lock { at } => lock(1, at),
            MutexAt::TryLock => at(7),
            MutexAt::Unlock { at } => unlock(8, at),
        }
    }
}

impl From<ParkerAt> for Record {
    fn from(place: ParkerAt) -> Record {
        match place {
            ParkerAt::Park { at: place } => at(match place {
                ParkAt::Subtract => 10,
                ParkAt::Wait => 11,
                ParkAt::Exchange => 12,
            }),
            ParkerAt::Unpark { thread, at: place } => at(match place {
                UnparkAt::Swap => 13,
                UnparkAt::Wake => 14,
            })
            .object(thread),
        }
    }
}

impl From<condvar::WaitAt> for Record {
    fn from(place: condvar::WaitAt) -> Record {
        match place {
            condvar::WaitAt::Load => at(15),
            condvar::WaitAt::Unlock { sequence, at } => unlock(16, at).word(sequence),
            condvar::WaitAt::Wait { sequence } => at(18).word(sequence),
            condvar::WaitAt::Relock { at } => lock(19, at),
        }
    }
}

impl From<CondvarAt> for Record {
    fn from(place: CondvarAt) -> Record {
        match place {
            CondvarAt::Wait { mutex, at } => Record::from(at).mutex(mutex),
            CondvarAt::Notify { all, at: place } => at(match (all, place) {
                (false, NotifyAt::Add) => 25,
                (false, NotifyAt::Wake) => 26,
                (true, NotifyAt::Add) => 27,
                (true, NotifyAt::Wake) => 28,
            }),
        }
    }
}

impl From<CallAt> for Record {
    fn from(place: CallAt) -> Record {
        match place {
            CallAt::Load => at(29),
            CallAt::ExchangeRunning { seen } => at(30).word(seen),
            CallAt::Closure => at(31),
            CallAt::Swap { ending } => ended(ending),
            CallAt::WakeAll { panicking } => at(33).place_flag(panicking),
            CallAt::ExchangeQueued { seen } => at(34).word(seen),
            CallAt::Wait { seen } => at(35).word(seen),
        }
    }
}

fn ended(how: Ending) -> Record {
    Record {
        ending: how as u8,
        ..at(32)
    }
}

impl From<once::WaitAt> for Record {
    fn from(place: once::WaitAt) -> Record {
        match place {
            once::WaitAt::Load => at(36),
            once::WaitAt::ExchangeQueued { seen } => at(37).word(seen),
            once::WaitAt::Wait { seen } => at(38).word(seen),
        }
    }
}

impl From<OnceAt> for Record {
    fn from(place: OnceAt) -> Record {
        match place {
            OnceAt::Call { ignores, at } => Record::from(at).call_flag(ignores),
            OnceAt::Wait { ignores, at } => Record::from(at).call_flag(ignores),
            OnceAt::IsCompleted => at(39),
        }
    }
}

impl From<ReadAt> for Record {
    fn from(place: ReadAt) -> Record {
        match place {
            ReadAt::Load => at(40),
            ReadAt::Exchange { seen } => at(41).word(seen),
            ReadAt::Spin { slept, left } => at(42).place_flag(slept).left(left),
            ReadAt::ExchangeContended { slept, seen } => at(43).place_flag(slept).word(seen),
            ReadAt::SetWaiting { slept, seen } => at(44).place_flag(slept).word(seen),
            ReadAt::Wait { seen } => at(45).word(seen),
        }
    }
}

// In try_read or try_write.
fn attempt(first: u8, place: TryAt) -> Record
    requires { first < 64 }
{
    match place {
        TryAt::Load => at(first),
        TryAt::Exchange { seen } => at(first + 1).word(seen),
    }
}

impl From<WriteAt> for Record {
    fn from(place: WriteAt) -> Record {
        match place {
            WriteAt::Exchange => at(48),
            WriteAt::Spin { others, left } => at(49).place_flag(others).left(left),
            WriteAt::ExchangeContended { others, seen } => at(50).place_flag(others).word(seen),
            WriteAt::SetWaiting { others, seen } => at(51).place_flag(others).word(seen),
            WriteAt::LoadSequence => at(52),
            WriteAt::LoadState { sequence } => at(53).word(sequence),
            WriteAt::Wait { sequence } => at(54).word(sequence),
        }
    }
}

impl From<WakeAt> for Record {
    fn from(place: WakeAt) -> Record {
        match place {
            WakeAt::ExchangeWriters => at(59),
            WakeAt::ExchangeBoth => at(60),
            WakeAt::Notify { both } => at(61).place_flag(both),
            WakeAt::WakeWriter { both } => at(62).place_flag(both),
            WakeAt::ExchangeReaders => at(63),
            WakeAt::WakeReaders => at(64),
        }
    }
}

impl From<DowngradeAt> for Record {
    fn from(place: DowngradeAt) -> Record {
        match place {
            DowngradeAt::Add => at(65),
            DowngradeAt::Subtract => at(66),
            DowngradeAt::WakeReaders => at(67),
        }
    }
}

impl From<RwLockAt> for Record {
    fn from(place: RwLockAt) -> Record {
        match place {
            RwLockAt::Read { at } => Record::from(at),
            RwLockAt::TryRead { at } => attempt(46, at),
            RwLockAt::Write { at } => Record::from(at),
            RwLockAt::TryWrite { at } => attempt(55, at),
            RwLockAt::ReadUnlock => at(57),
            RwLockAt::WriteUnlock => at(58),
            RwLockAt::Wake { writer, at } => Record::from(at).call_flag(writer),
            RwLockAt::Downgrade { at } => Record::from(at),
        }
    }
}
