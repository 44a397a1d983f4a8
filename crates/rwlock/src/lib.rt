// std's futex RwLock (rwlock/futex.rs) as a step machine: a step runs one atomic operation or one futex
// call, then the local code up to the next one.
#![tactic(auto, unfolding(crate::specs::Positions::after_wait, crate::specs::Positions::downgrade_may_wake, crate::specs::Positions::downgrade_needs, crate::specs::Positions::may_wake, crate::specs::Positions::must_wait, crate::specs::Positions::needs_of, crate::specs::Positions::operand_of, crate::specs::Positions::passed_of, crate::specs::Positions::read_passed, crate::specs::Positions::read_wait_next, crate::specs::Positions::read_waits, crate::specs::Positions::read_weak_next, crate::specs::Positions::try_read_passed, crate::specs::Positions::try_weak_next, crate::specs::Positions::try_write_passed, crate::specs::Positions::waits_of, crate::specs::Positions::wake_may_wake, crate::specs::Positions::wake_operand, crate::specs::Positions::weak_next, crate::specs::Positions::write_operand, crate::specs::Positions::write_passed, crate::specs::Positions::write_wait_next, crate::specs::Positions::write_waits, crate::specs::Positions::write_weak_next, crate::specs::RwLock::decide_of, crate::specs::RwLock::downgrade_of, crate::specs::RwLock::entry_of, crate::specs::RwLock::may_read, crate::specs::RwLock::read_after_wait, crate::specs::RwLock::read_of, crate::specs::RwLock::read_top, crate::specs::RwLock::read_unlock_of, crate::specs::RwLock::stops_read, crate::specs::RwLock::stops_write, crate::specs::RwLock::try_read_of, crate::specs::RwLock::try_read_top, crate::specs::RwLock::try_write_of, crate::specs::RwLock::try_write_top, crate::specs::RwLock::wake_of, crate::specs::RwLock::wake_rest, crate::specs::RwLock::wake_top, crate::specs::RwLock::write_after_wait, crate::specs::RwLock::write_locked_with, crate::specs::RwLock::write_of, crate::specs::RwLock::write_top, crate::specs::RwLock::write_unlock_of))]

ghost use Rattle.std.specs.Prelude.{◌≡◌};
ghost use Rattle.rwlock.specs.RwLock.{entry_of, read_after_wait, write_after_wait, try_read_top, try_read_of, may_read, read_top, stops_read, read_of, wake_rest, wake_top, read_unlock_of, try_write_top, try_write_of, write_unlock_of, downgrade_of, write_locked_with, write_top, stops_write, write_of, wake_of, decide_of};
ghost use Rattle.rwlock.specs.Positions.{after_wait, write_operand, wake_operand, operand_of, read_weak_next, try_weak_next, write_weak_next, weak_next, must_wait, read_waits, write_waits, read_passed, try_read_passed, write_passed, try_write_passed, passed_of, downgrade_needs, needs_of, read_wait_next, write_wait_next, waits_of, wake_may_wake, downgrade_may_wake, may_wake};

use words::{CounterWord, Hold, Kind, Needs, Panic, RwLockWord, SPINS, Step, Wake};

#[derive(Clone, Copy)]
pub enum RwLockCall {
    Read,
    TryRead,
    ReadUnlock,
    Write,
    TryWrite,
    WriteUnlock,
    Downgrade,
}

// Where in `read` a thread stands, by the operation that is next. `seen` is the state that an exchange
// expects or a futex_wait waits on, `slept` is has_slept, `left` the spins to go.
#[derive(Clone, Copy)]
pub enum ReadAt {
    Load,
    // read's exchange, weak
    Exchange { seen: u32 },
    // a load of spin_read
    Spin { slept: bool, left: u8 },
    // read_contended's exchange, weak
    ExchangeContended { slept: bool, seen: u32 },
    // the exchange that sets the readers waiting bit
    SetWaiting { slept: bool, seen: u32 },
    Wait { seen: u32 },
}

// Where in the `try_update` of `try_read` or `try_write` a thread stands.
#[derive(Clone, Copy)]
pub enum TryAt {
    Load,
    // weak
    Exchange { seen: u32 },
}

// Where in `write` a thread stands. `others`: other_writers_waiting is WRITERS_WAITING, and not 0;
// `sequence` is the notification counter seen.
#[derive(Clone, Copy)]
pub enum WriteAt {
    // write's exchange of 0, weak
    Exchange,
    // a load of spin_write
    Spin { others: bool, left: u8 },
    // write_contended's exchange, weak
    ExchangeContended { others: bool, seen: u32 },
    // the exchange that sets the writers waiting bit
    SetWaiting { others: bool, seen: u32 },
    // of writer_notify; other_writers_waiting is set from here on
    LoadSequence,
    LoadState { sequence: u32 },
    // on writer_notify
    Wait { sequence: u32 },
}

// Where in wake_writer_or_readers a thread stands. `both`: readers were waiting too.
#[derive(Clone, Copy)]
pub enum WakeAt {
    ExchangeWriters,
    ExchangeBoth,
    // wake_writer's fetch_add
    Notify { both: bool },
    // wake_writer's futex_wake
    WakeWriter { both: bool },
    ExchangeReaders,
    WakeReaders,
}

#[derive(Clone, Copy)]
pub enum DowngradeAt {
    Add,
    Subtract,
    WakeReaders,
}

// Where in a call on an RwLock a thread stands. After the fetch_sub of read_unlock and of write_unlock
// both are in wake_writer_or_readers; `writer`: it was write_unlock's.
#[derive(Clone, Copy)]
pub enum RwLockAt {
    Read { at: ReadAt },
    TryRead { at: TryAt },
    ReadUnlock,
    Write { at: WriteAt },
    TryWrite { at: TryAt },
    WriteUnlock,
    Wake { writer: bool, at: WakeAt },
    Downgrade { at: DowngradeAt },
}

pub fn entry(call: RwLockCall) -> RwLockAt
    ensures { result ≡ entry_of call }
{
    match call {
        RwLockCall::Read => RwLockAt::Read { at: ReadAt::Load },
        RwLockCall::TryRead => RwLockAt::TryRead { at: TryAt::Load },
        RwLockCall::ReadUnlock => RwLockAt::ReadUnlock,
        RwLockCall::Write => RwLockAt::Write {
            at: WriteAt::Exchange,
        },
        RwLockCall::TryWrite => RwLockAt::TryWrite { at: TryAt::Load },
        RwLockCall::WriteUnlock => RwLockAt::WriteUnlock,
        RwLockCall::Downgrade => RwLockAt::Downgrade {
            at: DowngradeAt::Add,
        },
    }
}

// try_read's closure, on the state seen.
fn try_read_top(seen: u32) -> Step<RwLockAt>
    ensures { result ≡ try_read_top seen }
{
    if RwLockWord::is_read_lockable(seen) {
        let at = TryAt::Exchange { seen };
        return Step::moves(seen, RwLockAt::TryRead { at });
    }
    Step::ends(seen, 0, Hold::Same, Wake::None)
}

// One step of `try_read`.
pub fn try_read(at: TryAt, fails: bool, word: u32) -> Step<RwLockAt>
    ensures { result ≡ try_read_of at fails word }
{
    match at {
        TryAt::Exchange { seen } if words::exchanges(word, seen, fails) => {
            Step::ends(RwLockWord::read_locked(seen), 1, Hold::TakeRead, Wake::None)
        }
        TryAt::Load | TryAt::Exchange { .. } => try_read_top(word),
    }
}

// If we have just been woken up, first check for a `downgrade` call.
fn may_read(slept: bool, seen: u32) -> bool
    ensures { result ≡ may_read slept seen }
{
    slept && RwLockWord::is_read_lockable_after_wakeup(seen) || RwLockWord::is_read_lockable(seen)
}

// The loop of read_contended, with the state seen.
fn read_top(slept: bool, seen: u32) -> Step<RwLockAt>
    ensures { result ≡ read_top slept seen }
{
    let to = |at| RwLockAt::Read { at };
    if may_read(slept, seen) {
        return Step::moves(seen, to(ReadAt::ExchangeContended { slept, seen }));
    }
    // Check for overflow.
    if RwLockWord::has_reached_max_readers(seen) {
        return Step::panics(seen, Panic::TooManyReaders, Wake::None);
    }
    // Make sure the readers waiting bit is set before we go to sleep.
    if RwLockWord::has_readers_waiting(seen) {
        return Step::moves(seen, to(ReadAt::Wait { seen }));
    }
    Step::moves(seen, to(ReadAt::SetWaiting { slept, seen }))
}

// spin_read: stop when it's unlocked or read locked, or when there's waiting threads.
fn stops_read(state: u32) -> bool
    ensures { result ≡ stops_read state }
{
    !RwLockWord::is_write_locked(state)
        || RwLockWord::has_readers_waiting(state)
        || RwLockWord::has_writers_waiting(state)
}

// One step of `read`.
pub fn read(at: ReadAt, fails: bool, word: u32) -> Step<RwLockAt>
    ensures { result ≡ read_of at fails word }
{
    let to = |at| RwLockAt::Read { at };
    let contended = ReadAt::Spin {
        slept: false,
        left: SPINS,
    };
    match at {
        ReadAt::Load if RwLockWord::is_read_lockable(word) => {
            Step::moves(word, to(ReadAt::Exchange { seen: word }))
        }
        ReadAt::Exchange { seen } | ReadAt::ExchangeContended { seen, .. }
            if words::exchanges(word, seen, fails) => {
            Step::ends(RwLockWord::read_locked(seen), 1, Hold::TakeRead, Wake::None)
        }
        ReadAt::Load | ReadAt::Exchange { .. } => Step::moves(word, to(contended)),
        ReadAt::Spin { slept, left } => {
            if stops_read(word) || left == 0 {
                return read_top(slept, word);
            }
            let left = left - 1;
            Step::moves(word, to(ReadAt::Spin { slept, left }))
        }
        ReadAt::ExchangeContended { slept, .. } => read_top(slept, word),
        ReadAt::SetWaiting { seen, .. } if word == seen => {
            let seen = RwLockWord::with_readers_waiting(seen);
            Step::moves(seen, to(ReadAt::Wait { seen }))
        }
        ReadAt::SetWaiting { slept, .. } => read_top(slept, word),
        ReadAt::Wait { seen } if word == seen => Step::sleeps(word),
        ReadAt::Wait { .. } => Step::moves(word, to(read_after_wait(at))),
    }
}

// wake_writer_or_readers from its second `if` on, with the state seen.
fn wake_rest(writer: bool, seen: u32, hold: Hold) -> Step<RwLockAt>
    ensures { result ≡ wake_rest writer seen hold }
{
    let to = |at| RwLockAt::Wake { writer, at };
    // If both writers and readers are waiting, leave the readers waiting and only wake up one writer.
    if seen == RwLockWord::READERS_WAITING + RwLockWord::WRITERS_WAITING {
        return Step::moves_with(seen, to(WakeAt::ExchangeBoth), hold, Wake::None);
    }
    // If readers are waiting, wake them all up.
    if seen == RwLockWord::READERS_WAITING {
        return Step::moves_with(seen, to(WakeAt::ExchangeReaders), hold, Wake::None);
    }
    Step::ends(seen, 1, hold, Wake::None)
}

// wake_writer_or_readers, with the state that the unlocking left. The readers waiting bit might be turned
// on at any point now, since readers will block when there's anything waiting. Writers will just lock the
// lock though, regardless of the waiting bits. If the lock gets locked in the meantime, we don't have to
// do anything: the thread that locked it wakes up waiters when it unlocks.
fn wake_top(writer: bool, seen: u32, hold: Hold) -> Step<RwLockAt>
    ensures { result ≡ wake_top writer seen hold }
{
    // If only writers are waiting, wake one of them up.
    if seen == RwLockWord::WRITERS_WAITING {
        let at = WakeAt::ExchangeWriters;
        return Step::moves_with(seen, RwLockAt::Wake { writer, at }, hold, Wake::None);
    }
    wake_rest(writer, seen, hold)
}

// One step of `read_unlock`: its fetch_sub.
pub fn read_unlock(word: u32) -> Step<RwLockAt>
    ensures { result ≡ read_unlock_of word }
{
    let state = RwLockWord::read_unlocked(word);
    // Wake up a writer if we were the last reader and there's a writer waiting. (It's impossible for a
    // reader to be waiting on a read-locked RwLock, except if there is also a writer waiting.)
    if RwLockWord::is_unlocked(state) && RwLockWord::has_writers_waiting(state) {
        return wake_top(false, state, Hold::FreeRead);
    }
    Step::ends(state, 1, Hold::FreeRead, Wake::None)
}

// try_write's closure, on the state seen.
fn try_write_top(seen: u32) -> Step<RwLockAt>
    ensures { result ≡ try_write_top seen }
{
    if RwLockWord::is_unlocked(seen) {
        let at = TryAt::Exchange { seen };
        return Step::moves(seen, RwLockAt::TryWrite { at });
    }
    Step::ends(seen, 0, Hold::Same, Wake::None)
}

// One step of `try_write`.
pub fn try_write(at: TryAt, fails: bool, word: u32) -> Step<RwLockAt>
    ensures { result ≡ try_write_of at fails word }
{
    match at {
        TryAt::Exchange { seen } if words::exchanges(word, seen, fails) => {
            Step::ends(
                RwLockWord::write_locked(seen),
                1,
                Hold::TakeWrite,
                Wake::None,
            )
        }
        TryAt::Load | TryAt::Exchange { .. } => try_write_top(word),
    }
}

// One step of `write_unlock`: its fetch_sub.
pub fn write_unlock(word: u32) -> Step<RwLockAt>
    ensures { result ≡ write_unlock_of word }
{
    let state = RwLockWord::write_unlocked(word);
    if RwLockWord::has_writers_waiting(state) || RwLockWord::has_readers_waiting(state) {
        return wake_top(true, state, Hold::FreeWrite);
    }
    Step::ends(state, 1, Hold::FreeWrite, Wake::None)
}

// One step of `downgrade`.
pub fn downgrade(at: DowngradeAt, word: u32) -> Step<RwLockAt>
    ensures { result ≡ downgrade_of at word }
{
    let to = |at| RwLockAt::Downgrade { at };
    match at {
        DowngradeAt::Add => {
            // Removes all write bits and adds a single read bit.
            let state = RwLockWord::downgraded(word);
            if RwLockWord::has_readers_waiting(word) {
                // Since we had the exclusive lock, nobody else can unset this bit.
                let subtract = to(DowngradeAt::Subtract);
                return Step::moves_with(state, subtract, Hold::Downgrade, Wake::None);
            }
            Step::ends(state, 1, Hold::Downgrade, Wake::None)
        }
        DowngradeAt::Subtract => {
            let state = RwLockWord::without_readers_waiting(word);
            Step::moves(state, to(DowngradeAt::WakeReaders))
        }
        DowngradeAt::WakeReaders => Step::ends(word, 1, Hold::Same, Wake::All),
    }
}

// state | WRITE_LOCKED | other_writers_waiting
fn write_locked_with(others: bool, seen: u32) -> u32
    ensures { result ≡ write_locked_with others seen }
{
    let locked = RwLockWord::with_write_locked(seen);
    if others {
        return RwLockWord::with_writers_waiting(locked);
    }
    locked
}

// The loop of write_contended, with the state seen.
fn write_top(others: bool, seen: u32) -> Step<RwLockAt>
    ensures { result ≡ write_top others seen }
{
    let to = |at| RwLockAt::Write { at };
    // If it's unlocked, we try to lock it.
    if RwLockWord::is_unlocked(seen) {
        return Step::moves(seen, to(WriteAt::ExchangeContended { others, seen }));
    }
    // Set the waiting bit indicating that we're waiting on it.
    if RwLockWord::has_writers_waiting(seen) {
        return Step::moves(seen, to(WriteAt::LoadSequence));
    }
    Step::moves(seen, to(WriteAt::SetWaiting { others, seen }))
}

// spin_write: stop when it's unlocked or when there's waiting writers, to keep things somewhat fair.
fn stops_write(state: u32) -> bool
    ensures { result ≡ stops_write state }
{
    RwLockWord::is_unlocked(state) || RwLockWord::has_writers_waiting(state)
}

// One step of `write`.
pub fn write(at: WriteAt, fails: bool, word: u32) -> Step<RwLockAt>
    ensures { result ≡ write_of at fails word }
{
    let to = |at| RwLockAt::Write { at };
    match at {
        WriteAt::Exchange if words::exchanges(word, 0, fails) => {
            Step::ends(RwLockWord::WRITE_LOCKED, 1, Hold::TakeWrite, Wake::None)
        }
        WriteAt::Exchange => {
            let spin = WriteAt::Spin {
                others: false,
                left: SPINS,
            };
            Step::moves(word, to(spin))
        }
        WriteAt::Spin { others, left } => {
            if stops_write(word) || left == 0 {
                return write_top(others, word);
            }
            let left = left - 1;
            Step::moves(word, to(WriteAt::Spin { others, left }))
        }
        WriteAt::ExchangeContended { others, seen } => {
            if words::exchanges(word, seen, fails) {
                let locked = write_locked_with(others, seen);
                return Step::ends(locked, 1, Hold::TakeWrite, Wake::None);
            }
            write_top(others, word)
        }
        WriteAt::SetWaiting { others, seen } => {
            if word == seen {
                // Other writers might be waiting now too, so we should make sure we keep that bit on
                // once we manage to lock it.
                let waiting = RwLockWord::with_writers_waiting(seen);
                return Step::moves(waiting, to(WriteAt::LoadSequence));
            }
            write_top(others, word)
        }
        // Examine the notification counter before we check if the state has changed, to make sure we
        // don't miss any notifications.
        WriteAt::LoadSequence => Step::moves(word, to(WriteAt::LoadState { sequence: word })),
        WriteAt::LoadState { sequence } => {
            // Don't go to sleep if the lock has become available, or if the writers waiting bit is no
            // longer set.
            if RwLockWord::is_unlocked(word) || !RwLockWord::has_writers_waiting(word) {
                return write_top(true, word);
            }
            Step::moves(word, to(WriteAt::Wait { sequence }))
        }
        WriteAt::Wait { sequence } if word == sequence => Step::sleeps(word),
        WriteAt::Wait { .. } => Step::moves(word, to(write_after_wait(at))),
    }
}

// One step of wake_writer_or_readers, or of wake_writer in it.
pub fn wake_writer_or_readers(writer: bool, at: WakeAt, word: u32, anyone: bool) -> Step<RwLockAt>
    ensures { result ≡ wake_of writer at word anyone }
{
    let to = |at| RwLockAt::Wake { writer, at };
    match at {
        WakeAt::ExchangeWriters if word == RwLockWord::WRITERS_WAITING => {
            Step::moves(0, to(WakeAt::Notify { both: false }))
        }
        // Maybe some readers are now waiting too. So, continue to the next `if`.
        WakeAt::ExchangeWriters => wake_rest(writer, word, Hold::Same),
        WakeAt::ExchangeBoth if word == RwLockWord::READERS_WAITING + RwLockWord::WRITERS_WAITING =>
            {
                Step::moves(
                    RwLockWord::READERS_WAITING,
                    to(WakeAt::Notify { both: true }),
                )
            }
        // The lock got locked. Not our problem anymore.
        WakeAt::ExchangeBoth => Step::ends(word, 1, Hold::Same, Wake::None),
        WakeAt::Notify { both } => {
            Step::moves(
                CounterWord::incremented(word),
                to(WakeAt::WakeWriter { both }),
            )
        }
        // No writers were actually blocked on futex_wait, so we continue to wake up readers instead,
        // since we can't be sure if we notified a writer.
        WakeAt::WakeWriter { both } if both && !anyone => {
            Step::moves_with(word, to(WakeAt::ExchangeReaders), Hold::Same, Wake::One)
        }
        WakeAt::WakeWriter { .. } => Step::ends(word, 1, Hold::Same, Wake::One),
        WakeAt::ExchangeReaders if word == RwLockWord::READERS_WAITING => {
            Step::moves(0, to(WakeAt::WakeReaders))
        }
        WakeAt::ExchangeReaders => Step::ends(word, 1, Hold::Same, Wake::None),
        WakeAt::WakeReaders => Step::ends(word, 1, Hold::Same, Wake::All),
    }
}

// One step of a thread at `at`, over the word that it is about; `fails`: where that is a weak exchange, it
// fails; `anyone`: whether somebody is asleep on the word.
pub fn decide(at: RwLockAt, fails: bool, word: u32, anyone: bool) -> Step<RwLockAt>
    ensures { result ≡ decide_of at fails word anyone }
{
    match at {
        RwLockAt::Read { at } => read(at, fails, word),
        RwLockAt::TryRead { at } => try_read(at, fails, word),
        RwLockAt::ReadUnlock => read_unlock(word),
        RwLockAt::Write { at } => write(at, fails, word),
        RwLockAt::TryWrite { at } => try_write(at, fails, word),
        RwLockAt::WriteUnlock => write_unlock(word),
        RwLockAt::Wake { writer, at } => wake_writer_or_readers(writer, at, word, anyone),
        RwLockAt::Downgrade { at } => downgrade(at, word),
    }
}

fn read_after_wait(at: ReadAt) -> ReadAt
    ensures { result ≡ read_after_wait at }
{
    match at {
        ReadAt::Wait { .. } => ReadAt::Spin {
            slept: true,
            left: SPINS,
        },
        other => other,
    }
}

fn write_after_wait(at: WriteAt) -> WriteAt
    ensures { result ≡ write_after_wait at }
{
    match at {
        WriteAt::Wait { .. } => WriteAt::Spin {
            others: true,
            left: SPINS,
        },
        other => other,
    }
}

// Where a call stands after its futex_wait, woken or not.
pub fn after_wait(at: RwLockAt) -> RwLockAt
    ensures { result ≡ after_wait at }
{
    match at {
        RwLockAt::Read { at } => RwLockAt::Read {
            at: read_after_wait(at),
        },
        RwLockAt::Write { at } => RwLockAt::Write {
            at: write_after_wait(at),
        },
        other => other,
    }
}

fn write_operand(at: WriteAt) -> Kind
    ensures { result ≡ write_operand at }
{
    match at {
        WriteAt::LoadSequence | WriteAt::Wait { .. } => Kind::WriterNotify,
        _ => Kind::RwLock,
    }
}

fn wake_operand(at: WakeAt) -> Kind
    ensures { result ≡ wake_operand at }
{
    match at {
        WakeAt::Notify { .. } | WakeAt::WakeWriter { .. } => Kind::WriterNotify,
        _ => Kind::RwLock,
    }
}

// The kind of word that the next operation is about.
pub fn operand(at: RwLockAt) -> Kind
    ensures { result ≡ operand_of at }
{
    match at {
        RwLockAt::Write { at } => write_operand(at),
        RwLockAt::Wake { at, .. } => wake_operand(at),
        _ => Kind::RwLock,
    }
}

fn read_weak_next(at: ReadAt) -> bool
    ensures { result ≡ read_weak_next at }
{
    matches!(
        at,
        ReadAt::Exchange { .. } | ReadAt::ExchangeContended { .. }
    )
}

fn try_weak_next(at: TryAt) -> bool
    ensures { result ≡ try_weak_next at }
{
    matches!(at, TryAt::Exchange { .. })
}

fn write_weak_next(at: WriteAt) -> bool
    ensures { result ≡ write_weak_next at }
{
    matches!(at, WriteAt::Exchange | WriteAt::ExchangeContended { .. })
}

// Whether the next operation is a weak exchange.
pub fn weak_next(at: RwLockAt) -> bool
    ensures { result ≡ weak_next at }
{
    match at {
        RwLockAt::Read { at } => read_weak_next(at),
        RwLockAt::TryRead { at } | RwLockAt::TryWrite { at } => try_weak_next(at),
        RwLockAt::Write { at } => write_weak_next(at),
        _ => false,
    }
}

// What a reader has seen that goes on to set the readers waiting bit.
fn must_wait(slept: bool, seen: u32) -> bool
    ensures { result ≡ must_wait slept seen }
{
    !may_read(slept, seen)
        && !RwLockWord::has_reached_max_readers(seen)
        && !RwLockWord::has_readers_waiting(seen)
}

// What a reader waits on.
fn read_waits_on(seen: u32) -> bool
    ensures { result ≡ read_waits seen }
{
    RwLockWord::has_readers_waiting(seen) && !RwLockWord::has_reached_max_readers(seen)
}

// What a writer has seen that goes on to set the writers waiting bit.
fn write_must_wait(seen: u32) -> bool
    ensures { result ≡ write_waits seen }
{
    !RwLockWord::is_unlocked(seen) && !RwLockWord::has_writers_waiting(seen)
}

fn read_passed(at: ReadAt) -> bool
    ensures { result ≡ read_passed at }
{
    match at {
        ReadAt::Load => true,
        ReadAt::Exchange { seen } => RwLockWord::is_read_lockable(seen),
        ReadAt::Spin { left, .. } => left <= SPINS,
        ReadAt::ExchangeContended { slept, seen } => may_read(slept, seen),
        ReadAt::SetWaiting { slept, seen } => must_wait(slept, seen),
        ReadAt::Wait { seen } => read_waits_on(seen),
    }
}

fn try_read_passed(at: TryAt) -> bool
    ensures { result ≡ try_read_passed at }
{
    match at {
        TryAt::Load => true,
        TryAt::Exchange { seen } => RwLockWord::is_read_lockable(seen),
    }
}

fn write_passed(at: WriteAt) -> bool
    ensures { result ≡ write_passed at }
{
    match at {
        WriteAt::Spin { left, .. } => left <= SPINS,
        WriteAt::ExchangeContended { seen, .. } => RwLockWord::is_unlocked(seen),
        WriteAt::SetWaiting { seen, .. } => write_must_wait(seen),
        _ => true,
    }
}

fn try_write_passed(at: TryAt) -> bool
    ensures { result ≡ try_write_passed at }
{
    match at {
        TryAt::Load => true,
        TryAt::Exchange { seen } => RwLockWord::is_unlocked(seen),
    }
}

// Whether the values carried are such as the source's tests let come to this position.
pub fn passed(at: RwLockAt) -> bool
    ensures { result ≡ passed_of at }
{
    match at {
        RwLockAt::Read { at } => read_passed(at),
        RwLockAt::TryRead { at } => try_read_passed(at),
        RwLockAt::Write { at } => write_passed(at),
        RwLockAt::TryWrite { at } => try_write_passed(at),
        _ => true,
    }
}

// The hold that a call still before the operation that frees or downgrades has.
pub fn needs(at: RwLockAt) -> Needs
    ensures { result ≡ needs_of at }
{
    match at {
        RwLockAt::ReadUnlock => Needs::Read,
        RwLockAt::WriteUnlock => Needs::Write,
        RwLockAt::Downgrade { at } => downgrade_needs(at),
        _ => Needs::Nothing,
    }
}

fn downgrade_needs(at: DowngradeAt) -> Needs
    ensures { result ≡ downgrade_needs at }
{
    match at {
        DowngradeAt::Add => Needs::Write,
        DowngradeAt::Subtract | DowngradeAt::WakeReaders => Needs::Nothing,
    }
}

fn read_wait_next(at: ReadAt) -> bool
    ensures { result ≡ read_wait_next at }
{
    matches!(at, ReadAt::Wait { .. })
}

fn write_wait_next(at: WriteAt) -> bool
    ensures { result ≡ write_wait_next at }
{
    matches!(at, WriteAt::Wait { .. })
}

// Whether the next operation is a futex_wait: a sleeper stands at one.
pub fn waits(at: RwLockAt) -> bool
    ensures { result ≡ waits_of at }
{
    match at {
        RwLockAt::Read { at } => read_wait_next(at),
        RwLockAt::Write { at } => write_wait_next(at),
        _ => false,
    }
}

fn wake_may_wake(at: WakeAt) -> bool
    ensures { result ≡ wake_may_wake at }
{
    matches!(at, WakeAt::WakeWriter { .. } | WakeAt::WakeReaders)
}

fn downgrade_may_wake(at: DowngradeAt) -> bool
    ensures { result ≡ downgrade_may_wake at }
{
    matches!(at, DowngradeAt::WakeReaders)
}

// Whether the next operation may wake a sleeper.
pub fn may_wake(at: RwLockAt) -> bool
    ensures { result ≡ may_wake at }
{
    match at {
        RwLockAt::Wake { at, .. } => wake_may_wake(at),
        RwLockAt::Downgrade { at } => downgrade_may_wake(at),
        _ => false,
    }
}
