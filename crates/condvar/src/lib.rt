// std's futex condvar (condvar/futex.rs) as a step machine: a step runs one atomic operation or one
// futex call, then the local code up to the next one. A wait's mutex part is the mutex's own steps.
#![tactic(auto, unfolding(crate::specs::Condvar::after_wait, crate::specs::Condvar::relock_step, crate::specs::Condvar::decide_of, crate::specs::Condvar::entry_of, crate::specs::Condvar::may_wake, crate::specs::Condvar::mutex_of, crate::specs::Condvar::needs_of, crate::specs::Condvar::notify_may_wake, crate::specs::Condvar::notify_of, crate::specs::Condvar::object_of, crate::specs::Condvar::operand_of, crate::specs::Condvar::passed_of, crate::specs::Condvar::unlock_step, crate::specs::Condvar::wait_after_wait, crate::specs::Condvar::wait_may_wake, crate::specs::Condvar::wait_needs, crate::specs::Condvar::wait_object, crate::specs::Condvar::wait_of, crate::specs::Condvar::wait_operand, crate::specs::Condvar::wait_passed, crate::specs::Condvar::wait_waits, crate::specs::Condvar::waits_of, crate::specs::Condvar::weak_next))]

ghost use Rattle.std.specs.Prelude.{◌≡◌};
ghost use Rattle.condvar.specs.declared.CondvarAt.TheVariants as A;
ghost use Rattle.condvar.specs.declared.WaitAt.TheVariants as Wt;
ghost use Rattle.condvar.specs.Condvar.{entry_of, wait_of, notify_of, decide_of, wait_after_wait, after_wait, wait_operand, operand_of, wait_object, object_of, mutex_of, weak_next, wait_passed, passed_of, wait_needs, needs_of, wait_waits, waits_of, wait_may_wake, notify_may_wake, may_wake};

use mutex::{LockAt, UnlockAt};
use words::{CounterWord, Hold, Kind, Needs, Step, Wake, Within};

#[derive(Clone, Copy)]
pub enum CondvarCall {
    Wait { mutex: u8 },
    NotifyOne,
    NotifyAll,
}

// Where in `wait` a thread stands, by the operation that is next. `sequence` is the notification
// counter as it was before the mutex was unlocked.
#[derive(Clone, Copy)]
pub enum WaitAt {
    Load,
    // in mutex.unlock()
    Unlock { sequence: u32, at: UnlockAt },
    // futex_wait on the sequence seen
    Wait { sequence: u32 },
    // in mutex.lock()
    Relock { at: LockAt },
}

// Where in `notify_one` or `notify_all` a thread stands.
#[derive(Clone, Copy)]
pub enum NotifyAt {
    Add,
    // futex_wake or futex_wake_all
    Wake,
}

// Where in a call on a condvar a thread stands; `mutex` is the one that a wait names.
#[derive(Clone, Copy)]
pub enum CondvarAt {
    Wait { mutex: u8, at: WaitAt },
    Notify { all: bool, at: NotifyAt },
}

pub fn entry(call: CondvarCall) -> CondvarAt
    ensures { result ≡ entry_of call }
{
    match call {
        CondvarCall::Wait { mutex } => CondvarAt::Wait {
            mutex,
            at: WaitAt::Load,
        },
        CondvarCall::NotifyOne => CondvarAt::Notify {
            all: false,
            at: NotifyAt::Add,
        },
        CondvarCall::NotifyAll => CondvarAt::Notify {
            all: true,
            at: NotifyAt::Add,
        },
    }
}

// The mutex's positions in its unlock and in its lock, as those of a wait that names it.
#[derive(Clone, Copy)]
struct InUnlock {
    mutex: u8,
    sequence: u32,
}

impl Within<UnlockAt, CondvarAt> for InUnlock {
    ghost within = { λ wait at. A.Wait wait.mutex (Wt.Unlock wait.sequence at) };

    fn within(self, at: UnlockAt) -> CondvarAt {
        CondvarAt::Wait {
            mutex: self.mutex,
            at: WaitAt::Unlock {
                sequence: self.sequence,
                at,
            },
        }
    }
}

#[derive(Clone, Copy)]
struct InRelock {
    mutex: u8,
}

impl Within<LockAt, CondvarAt> for InRelock {
    ghost within = { λ wait at. A.Wait wait.mutex (Wt.Relock at) };

    fn within(self, at: LockAt) -> CondvarAt {
        CondvarAt::Wait {
            mutex: self.mutex,
            at: WaitAt::Relock { at },
        }
    }
}

// One step of `wait`.
pub fn wait(mutex: u8, at: WaitAt, word: u32) -> Step<CondvarAt>
    ensures { result ≡ wait_of mutex at word }
{
    let to = |at| CondvarAt::Wait { mutex, at };
    match at {
        // Examine the notification counter _before_ we unlock the mutex.
        WaitAt::Load => {
            let unlock = WaitAt::Unlock {
                sequence: word,
                at: UnlockAt::Swap,
            };
            Step::moves(word, to(unlock))
        }
        WaitAt::Unlock { sequence, at } => {
            let unlock = InUnlock { mutex, sequence };
            mutex::unlock(at, word).then(unlock, to(WaitAt::Wait { sequence }))
        }
        // Wait, but only if there hasn't been any notification since we unlocked the mutex.
        WaitAt::Wait { sequence } if word == sequence => Step::sleeps(word),
        WaitAt::Wait { .. } => Step::moves(word, to(wait_after_wait(at))),
        WaitAt::Relock { at } => mutex::lock(at, word).map(InRelock { mutex }),
    }
}

// One step of `notify_one`, or of `notify_all`.
pub fn notify(all: bool, at: NotifyAt, word: u32) -> Step<CondvarAt>
    ensures { result ≡ notify_of all at word }
{
    let at_wake = CondvarAt::Notify {
        all,
        at: NotifyAt::Wake,
    };
    match at {
        NotifyAt::Add => Step::moves(CounterWord::incremented(word), at_wake),
        NotifyAt::Wake if all => Step::ends(word, 1, Hold::Same, Wake::All),
        NotifyAt::Wake => Step::ends(word, 1, Hold::Same, Wake::One),
    }
}

// One step of a thread at `at`, over the word that it is about. No exchange of this module is weak, and
// none of its calls asks whether it woke anybody.
pub fn decide(at: CondvarAt, fails: bool, word: u32, anyone: bool) -> Step<CondvarAt>
    ensures { result ≡ decide_of at fails word anyone }
{
    match at {
        CondvarAt::Wait { mutex, at } => wait(mutex, at, word),
        CondvarAt::Notify { all, at } => notify(all, at, word),
    }
}

fn wait_after_wait(at: WaitAt) -> WaitAt
    ensures { result ≡ wait_after_wait at }
{
    match at {
        WaitAt::Wait { .. } => WaitAt::Relock {
            at: LockAt::Exchange,
        },
        WaitAt::Relock { at } => WaitAt::Relock {
            at: mutex::lock_after_wait(at),
        },
        other => other,
    }
}

// Where a call stands after its futex_wait, woken or not.
pub fn after_wait(at: CondvarAt) -> CondvarAt
    ensures { result ≡ after_wait at }
{
    match at {
        CondvarAt::Wait { mutex, at } => CondvarAt::Wait {
            mutex,
            at: wait_after_wait(at),
        },
        other => other,
    }
}

fn wait_operand(at: WaitAt) -> Kind
    ensures { result ≡ wait_operand at }
{
    match at {
        WaitAt::Load | WaitAt::Wait { .. } => Kind::Condvar,
        WaitAt::Unlock { .. } | WaitAt::Relock { .. } => Kind::Mutex,
    }
}

// The kind of word that the next operation is about.
pub fn operand(at: CondvarAt) -> Kind
    ensures { result ≡ operand_of at }
{
    match at {
        CondvarAt::Wait { at, .. } => wait_operand(at),
        CondvarAt::Notify { .. } => Kind::Condvar,
    }
}

fn wait_object(own: u8, mutex: u8, at: WaitAt) -> u8
    ensures { result ≡ wait_object own mutex at }
{
    match at {
        WaitAt::Load | WaitAt::Wait { .. } => own,
        WaitAt::Unlock { .. } | WaitAt::Relock { .. } => mutex,
    }
}

// The number of the object that the word belongs to, where the call is on the condvar `own`.
pub fn object(own: u8, at: CondvarAt) -> u8
    ensures { result ≡ object_of own at }
{
    match at {
        CondvarAt::Wait { mutex, at } => wait_object(own, mutex, at),
        CondvarAt::Notify { .. } => own,
    }
}

// The mutex that a wait names; 0 where the call is none.
pub fn mutex_of(at: CondvarAt) -> u8
    ensures { result ≡ mutex_of at }
{
    match at {
        CondvarAt::Wait { mutex, .. } => mutex,
        CondvarAt::Notify { .. } => 0,
    }
}

// Whether the next operation is a weak exchange.
pub fn weak_next(at: CondvarAt) -> bool
    ensures { result ≡ weak_next at }
{
    false
}

fn wait_passed(at: WaitAt) -> bool
    ensures { result ≡ wait_passed at }
{
    match at {
        WaitAt::Relock { at } => mutex::lock_passed(at),
        _ => true,
    }
}

// Whether the values carried are such as the source's tests let come to this position.
pub fn passed(at: CondvarAt) -> bool
    ensures { result ≡ passed_of at }
{
    match at {
        CondvarAt::Wait { at, .. } => wait_passed(at),
        CondvarAt::Notify { .. } => true,
    }
}

fn wait_needs(at: WaitAt) -> Needs
    ensures { result ≡ wait_needs at }
{
    match at {
        WaitAt::Load => Needs::Mutex,
        WaitAt::Unlock { at, .. } => mutex::unlock_needs(at),
        WaitAt::Wait { .. } | WaitAt::Relock { .. } => Needs::Nothing,
    }
}

// The hold that a call still before the operation that frees has, of the mutex that it names.
pub fn needs(at: CondvarAt) -> Needs
    ensures { result ≡ needs_of at }
{
    match at {
        CondvarAt::Wait { at, .. } => wait_needs(at),
        CondvarAt::Notify { .. } => Needs::Nothing,
    }
}

fn wait_waits(at: WaitAt) -> bool
    ensures { result ≡ wait_waits at }
{
    match at {
        WaitAt::Wait { .. } => true,
        WaitAt::Relock { at } => mutex::lock_waits(at),
        WaitAt::Load | WaitAt::Unlock { .. } => false,
    }
}

// Whether the next operation is a futex_wait: a sleeper stands at one.
pub fn waits(at: CondvarAt) -> bool
    ensures { result ≡ waits_of at }
{
    match at {
        CondvarAt::Wait { at, .. } => wait_waits(at),
        CondvarAt::Notify { .. } => false,
    }
}

fn wait_may_wake(at: WaitAt) -> bool
    ensures { result ≡ wait_may_wake at }
{
    match at {
        WaitAt::Unlock { at, .. } => mutex::unlock_may_wake(at),
        _ => false,
    }
}

fn notify_may_wake(at: NotifyAt) -> bool
    ensures { result ≡ notify_may_wake at }
{
    matches!(at, NotifyAt::Wake)
}

// Whether the next operation may wake a sleeper.
pub fn may_wake(at: CondvarAt) -> bool
    ensures { result ≡ may_wake at }
{
    match at {
        CondvarAt::Wait { at, .. } => wait_may_wake(at),
        CondvarAt::Notify { at, .. } => notify_may_wake(at),
    }
}
