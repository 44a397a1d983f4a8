// std's futex mutex (mutex/futex.rs) as a step machine: a step runs one atomic operation or one futex
// call, then the local code up to the next one.
#![tactic(auto, unfolding(crate::specs::Mutex::after_wait, crate::specs::Mutex::contended, crate::specs::Mutex::decide_of, crate::specs::Mutex::entry_of, crate::specs::Mutex::lock_after_wait, crate::specs::Mutex::lock_of, crate::specs::Mutex::lock_passed, crate::specs::Mutex::lock_waits, crate::specs::Mutex::may_wake, crate::specs::Mutex::needs_of, crate::specs::Mutex::operand_of, crate::specs::Mutex::passed_of, crate::specs::Mutex::spun, crate::specs::Mutex::takes, crate::specs::Mutex::try_lock_of, crate::specs::Mutex::unlock_may_wake, crate::specs::Mutex::unlock_needs, crate::specs::Mutex::unlock_of, crate::specs::Mutex::waits_of, crate::specs::Mutex::weak_next))]

ghost use Rattle.std.specs.Prelude.{◌≡◌};
ghost use Rattle.mutex.specs.declared.MutexAt.TheVariants as M;
ghost use Rattle.mutex.specs.Mutex.{entry_of, lock_of, contended, spun, try_lock_of, unlock_of, decide_of, lock_after_wait, after_wait, operand_of, weak_next, lock_passed, passed_of, unlock_needs, needs_of, lock_waits, waits_of, unlock_may_wake, may_wake, takes};

use words::{Hold, Kind, MutexWord, Needs, SPINS, Step, Wake, Within};

#[derive(Clone, Copy)]
pub enum MutexCall {
    Lock,
    TryLock,
    Unlock,
}

// Where in `lock` a thread stands, by the operation that is next.
#[derive(Clone, Copy)]
pub enum LockAt {
    // lock's exchange of UNLOCKED for LOCKED
    Exchange,
    // a load of the first spin, with `left` spins to go
    Spin { left: u8 },
    // lock_contended's exchange of UNLOCKED for LOCKED
    ExchangeAgain,
    // the loop's swap of CONTENDED
    Swap,
    // the loop's futex_wait on CONTENDED
    Wait,
    // a load of a spin after the wait
    SpinAgain { left: u8 },
}

// Where in `unlock` a thread stands.
#[derive(Clone, Copy)]
pub enum UnlockAt {
    Swap,
    // futex_wake, of one
    Wake,
}

// Where in a call on a mutex a thread stands.
#[derive(Clone, Copy)]
pub enum MutexAt {
    Lock { at: LockAt },
    TryLock,
    Unlock { at: UnlockAt },
}

pub fn entry(call: MutexCall) -> MutexAt
    ensures { result ≡ entry_of call }
{
    match call {
        MutexCall::Lock => MutexAt::Lock {
            at: LockAt::Exchange,
        },
        MutexCall::TryLock => MutexAt::TryLock,
        MutexCall::Unlock => MutexAt::Unlock { at: UnlockAt::Swap },
    }
}

// `lock` ends with the mutex taken.
fn takes(word: u32) -> Step<LockAt>
    ensures { result ≡ takes word }
{
    Step::ends(word, 1, Hold::TakeMutex, Wake::None)
}

// The loop of lock_contended, with the state seen.
fn contended(state: u32) -> Step<LockAt>
    ensures { result ≡ contended state }
{
    // The swap is spared where the lock is contended already.
    if MutexWord::is_contended(state) {
        return Step::moves(state, LockAt::Wait);
    }
    Step::moves(state, LockAt::Swap)
}

// After the first spin, with the state seen.
fn spun(state: u32) -> Step<LockAt>
    ensures { result ≡ spun state }
{
    // If it's unlocked now, attempt to take the lock without marking it as contended.
    if MutexWord::is_unlocked(state) {
        return Step::moves(state, LockAt::ExchangeAgain);
    }
    contended(state)
}

// One step of `lock`.
pub fn lock(at: LockAt, word: u32) -> Step<LockAt>
    ensures { result ≡ lock_of at word }
{
    match at {
        LockAt::Exchange if MutexWord::is_unlocked(word) => takes(MutexWord::LOCKED),
        // Spin first to speed things up if the lock is released quickly.
        LockAt::Exchange => Step::moves(word, LockAt::Spin { left: SPINS }),
        // We stop spinning when the mutex is UNLOCKED, but also when it's CONTENDED.
        LockAt::Spin { left } if MutexWord::is_locked(word) && left != 0 => {
            Step::moves(word, LockAt::Spin { left: left - 1 })
        }
        LockAt::Spin { .. } => spun(word),
        LockAt::ExchangeAgain if MutexWord::is_unlocked(word) => takes(MutexWord::LOCKED),
        LockAt::ExchangeAgain => contended(word),
        // From UNLOCKED to CONTENDED: it is locked, and whoever else waits is remembered.
        LockAt::Swap if MutexWord::is_unlocked(word) => takes(MutexWord::CONTENDED),
        LockAt::Swap => Step::moves(MutexWord::CONTENDED, LockAt::Wait),
        LockAt::Wait if MutexWord::is_contended(word) => Step::sleeps(word),
        LockAt::Wait => Step::moves(word, lock_after_wait(at)),
        LockAt::SpinAgain { left } if MutexWord::is_locked(word) && left != 0 => {
            Step::moves(word, LockAt::SpinAgain { left: left - 1 })
        }
        LockAt::SpinAgain { .. } => contended(word),
    }
}

// One step of `try_lock`, which is all of it.
pub fn try_lock(word: u32) -> Step<MutexAt>
    ensures { result ≡ try_lock_of word }
{
    if MutexWord::is_unlocked(word) {
        return Step::ends(MutexWord::LOCKED, 1, Hold::TakeMutex, Wake::None);
    }
    Step::ends(word, 0, Hold::Same, Wake::None)
}

// One step of `unlock`.
pub fn unlock(at: UnlockAt, word: u32) -> Step<UnlockAt>
    ensures { result ≡ unlock_of at word }
{
    let unlocked = MutexWord::UNLOCKED;
    match at {
        // We only wake up one thread. When that thread locks the mutex, it will mark the mutex as
        // CONTENDED (see lock), so that any other waiting threads will also be woken up eventually.
        UnlockAt::Swap if MutexWord::is_contended(word) => {
            Step::moves_with(unlocked, UnlockAt::Wake, Hold::FreeMutex, Wake::None)
        }
        UnlockAt::Swap => Step::ends(unlocked, 1, Hold::FreeMutex, Wake::None),
        UnlockAt::Wake => Step::ends(word, 1, Hold::Same, Wake::One),
    }
}

// A call on a mutex: the positions of `lock` and of `unlock` stand among its own so.
#[derive(Clone, Copy)]
struct Whole;

impl Within<LockAt, MutexAt> for Whole {
    ghost within = { λ whole at. M.Lock at };

    fn within(self, at: LockAt) -> MutexAt {
        MutexAt::Lock { at }
    }
}

impl Within<UnlockAt, MutexAt> for Whole {
    ghost within = { λ whole at. M.Unlock at };

    fn within(self, at: UnlockAt) -> MutexAt {
        MutexAt::Unlock { at }
    }
}

// One step of a thread at `at`, over the mutex's word. No exchange of this module is weak, and none of
// its calls asks whether it woke anybody.
pub fn decide(at: MutexAt, fails: bool, word: u32, anyone: bool) -> Step<MutexAt>
    ensures { result ≡ decide_of at fails word anyone }
{
    match at {
        MutexAt::Lock { at } => lock(at, word).map(Whole),
        MutexAt::TryLock => try_lock(word),
        MutexAt::Unlock { at } => unlock(at, word).map(Whole),
    }
}

// Where `lock` stands after its futex_wait, woken or not: it spins again, and the second exchange is
// not for it any more.
pub fn lock_after_wait(at: LockAt) -> LockAt
    ensures { result ≡ lock_after_wait at }
{
    match at {
        LockAt::Wait => LockAt::SpinAgain { left: SPINS },
        other => other,
    }
}

// Where a call stands after its futex_wait, woken or not.
pub fn after_wait(at: MutexAt) -> MutexAt
    ensures { result ≡ after_wait at }
{
    match at {
        MutexAt::Lock { at } => MutexAt::Lock {
            at: lock_after_wait(at),
        },
        other => other,
    }
}

// The kind of word that the next operation is about.
pub fn operand(at: MutexAt) -> Kind
    ensures { result ≡ operand_of at }
{
    Kind::Mutex
}

// Whether the next operation is a weak exchange.
pub fn weak_next(at: MutexAt) -> bool
    ensures { result ≡ weak_next at }
{
    false
}

// Whether the spins left are a number that `lock` gets to.
pub fn lock_passed(at: LockAt) -> bool
    ensures { result ≡ lock_passed at }
{
    match at {
        LockAt::Spin { left } | LockAt::SpinAgain { left } => left <= SPINS,
        _ => true,
    }
}

// Whether the values carried are such as the source's tests let come to this position.
pub fn passed(at: MutexAt) -> bool
    ensures { result ≡ passed_of at }
{
    match at {
        MutexAt::Lock { at } => lock_passed(at),
        MutexAt::TryLock | MutexAt::Unlock { .. } => true,
    }
}

// The hold that `unlock` has until its swap.
pub fn unlock_needs(at: UnlockAt) -> Needs
    ensures { result ≡ unlock_needs at }
{
    match at {
        UnlockAt::Swap => Needs::Mutex,
        UnlockAt::Wake => Needs::Nothing,
    }
}

// The hold that a call still before the operation that frees has.
pub fn needs(at: MutexAt) -> Needs
    ensures { result ≡ needs_of at }
{
    match at {
        MutexAt::Unlock { at } => unlock_needs(at),
        MutexAt::Lock { .. } | MutexAt::TryLock => Needs::Nothing,
    }
}

// Whether `lock` is at its futex_wait.
pub fn lock_waits(at: LockAt) -> bool
    ensures { result ≡ lock_waits at }
{
    matches!(at, LockAt::Wait)
}

// Whether the next operation is a futex_wait: a sleeper stands at one.
pub fn waits(at: MutexAt) -> bool
    ensures { result ≡ waits_of at }
{
    matches!(at, MutexAt::Lock { at: LockAt::Wait })
}

// Whether `unlock` is at its futex_wake.
pub fn unlock_may_wake(at: UnlockAt) -> bool
    ensures { result ≡ unlock_may_wake at }
{
    matches!(at, UnlockAt::Wake)
}

// Whether the next operation may wake a sleeper.
pub fn may_wake(at: MutexAt) -> bool
    ensures { result ≡ may_wake at }
{
    matches!(at, MutexAt::Unlock { at: UnlockAt::Wake })
}
