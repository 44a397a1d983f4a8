// Calls over the five modules: where a thread stands in which call on which object, what its next step
// does, and what an act answers. A module's step becomes the call's here: its end the call's end, its word
// a number in the row of all words.
#![tactic(auto, unfolding(crate::specs::Plans::plan_of, crate::specs::Events::tell_of, crate::specs::Events::value_of, crate::specs::Events::woken_of, crate::specs::Objects::word_of, crate::specs::Plans::decide_of, crate::specs::Plans::done, crate::specs::Plans::entered, crate::specs::Plans::moved, crate::specs::Plans::panicked, crate::specs::Plans::slept, crate::specs::Positions::after_wait, crate::specs::Positions::call_of, crate::specs::Positions::condvar_call, crate::specs::Positions::condvar_exists, crate::specs::Positions::entry_of, crate::specs::Positions::exists, crate::specs::Positions::in_closure, crate::specs::Positions::is_idle, crate::specs::Positions::may_wake, crate::specs::Positions::mutex_call, crate::specs::Positions::need_of, crate::specs::Positions::once_call, crate::specs::Positions::operand_of, crate::specs::Positions::parker_call, crate::specs::Positions::parker_exists, crate::specs::Positions::passed_of, crate::specs::Positions::rwlock_call, crate::specs::Positions::waits_of, crate::specs::Positions::weak_next))]

ghost use Rattle.std.specs.Prelude.{◌≡◌};
ghost use Rattle.calls.specs.declared.At.TheVariants as A;
ghost use Rattle.calls.specs.Objects.{WORDS, size_of, base_of, word_of};
ghost use Rattle.words.specs.Found.{found};
ghost use Rattle.calls.specs.Calls.{Names, number_of, told_call};
ghost use Rattle.calls.specs.Events.{value_of, woken_of, tell_of};
ghost use Rattle.calls.specs.Plans.{plan_of, decide_of};
ghost use Rattle.calls.specs.Positions.{entry_of, mutex_call, rwlock_call, condvar_call, once_call, parker_call, call_of, operand_of, after_wait, waits_of, may_wake, weak_next, passed_of, is_idle, in_closure, need_of, condvar_exists, parker_exists, exists};

use condvar::{CondvarAt, CondvarCall};
use mutex::{MutexAt, MutexCall};
use once::{OnceAt, OnceCall};
use queue::THREADS;
use rwlock::{RwLockAt, RwLockCall};
use thread_parking::{ParkerAt, ParkerCall};
use words::{Hold, Kind, Needs, Next, Step, Wake, Within};

// How many objects of each kind there are.
pub const MUTEXES: usize = 4;

pub const RWLOCKS: usize = 4;

pub const CONDVARS: usize = 4;

pub const ONCES: usize = 4;

// The row of all words: mutexes, RwLock states, writer_notify words, condvars, Onces, then a Parker for
// each thread.
pub const WORDS: usize = MUTEXES + RWLOCKS + RWLOCKS + CONDVARS + ONCES + THREADS;

// The calls of a schedule, in the order of their numbers.
#[derive(Clone, Copy, Debug, PartialEq, Eq)]
pub enum Call {
    Lock,
    TryLock,
    Unlock,
    Read,
    TryRead,
    ReadUnlock,
    Write,
    TryWrite,
    WriteUnlock,
    Downgrade,
    CondvarWait,
    NotifyOne,
    NotifyAll,
    OnceCall,
    // .. with ignore_poisoning, as the next but one
    OnceCallForce,
    OnceWait,
    OnceWaitForce,
    IsCompleted,
    Park,
    Unpark,
}

// A number that names no call.
#[derive(Clone, Copy, Debug, PartialEq, Eq)]
pub struct NoCall;

impl TryFrom<u8> for Call {
    type Error = NoCall;

    ghost try_from_gives = { Names };

    fn try_from(number: u8) -> Result<Self, NoCall> {
        match number {
            0 => Ok(Call::Lock),
            1 => Ok(Call::TryLock),
            2 => Ok(Call::Unlock),
            3 => Ok(Call::Read),
            4 => Ok(Call::TryRead),
            5 => Ok(Call::ReadUnlock),
            6 => Ok(Call::Write),
            7 => Ok(Call::TryWrite),
            8 => Ok(Call::WriteUnlock),
            9 => Ok(Call::Downgrade),
            10 => Ok(Call::CondvarWait),
            11 => Ok(Call::NotifyOne),
            12 => Ok(Call::NotifyAll),
            13 => Ok(Call::OnceCall),
            14 => Ok(Call::OnceCallForce),
            15 => Ok(Call::OnceWait),
            16 => Ok(Call::OnceWaitForce),
            17 => Ok(Call::IsCompleted),
            18 => Ok(Call::Park),
            19 => Ok(Call::Unpark),
            _ => Err(NoCall),
        }
    }
}

// Where a thread stands: idle, or in a call on an object.
#[derive(Clone, Copy)]
pub enum At {
    Idle,
    Mutex { mutex: u8, at: MutexAt },
    RwLock { lock: u8, at: RwLockAt },
    Condvar { condvar: u8, at: CondvarAt },
    Once { once: u8, at: OnceAt },
    // of the thread's own Parker, or of that of the thread which the position names
    Parker { at: ParkerAt },
}

// A thread's record. A sleeper stands at the futex_wait that it sleeps in.
#[derive(Clone, Copy)]
pub struct Thread {
    pub at: At,
    pub asleep: bool,
}

// What an act answers.
#[derive(Clone, Copy)]
pub enum Event {
    Set,
    Begun,
    Moved { woken: u8 },
    Done { value: u8, woken: u8 },
    Slept,
    Panic { number: u8, woken: u8 },
    Closure,
    Woken,
    Closed,
    Refused { number: u8 },
}

// What a step does: the word's new value, the thread's next record, the hold of `object` that changes,
// whom it wakes, and what is told of it (the sleepers woken not yet counted).
#[derive(Clone, Copy)]
pub struct Plan {
    pub word: u32,
    pub next: Thread,
    pub hold: Hold,
    pub object: u8,
    pub wake: Wake,
    pub event: Event,
}

// The hold that a thread has until an operation of its call takes it away.
#[derive(Clone, Copy)]
pub struct Need {
    pub hold: Needs,
    pub object: u8,
}

fn size_of(kind: Kind) -> usize
    ensures { result ≡ size_of kind }
{
    match kind {
        Kind::Nothing => 0,
        Kind::Mutex => MUTEXES,
        Kind::RwLock => RWLOCKS,
        Kind::WriterNotify => RWLOCKS,
        Kind::Condvar => CONDVARS,
        Kind::Once => ONCES,
        Kind::Parker => THREADS,
    }
}

fn base_of(kind: Kind) -> usize
    ensures { result ≡ base_of kind }
{
    match kind {
        Kind::Nothing => 0,
        Kind::Mutex => 0,
        Kind::RwLock => MUTEXES,
        Kind::WriterNotify => MUTEXES + RWLOCKS,
        Kind::Condvar => MUTEXES + RWLOCKS + RWLOCKS,
        Kind::Once => MUTEXES + RWLOCKS + RWLOCKS + CONDVARS,
        Kind::Parker => MUTEXES + RWLOCKS + RWLOCKS + CONDVARS + ONCES,
    }
}

// The number of the word of an object, where there is one.
pub fn word_number(kind: Kind, object: u8) -> Option<usize>
    ensures { result ≡ found WORDS (word_of kind object) }
{
    let index = usize::from(object);
    if index < size_of(kind) {
        return Some(base_of(kind) + index);
    }
    None
}

// The value that is told of an event: 1 or 0 for done, the number of a panic or a refusal, else 0.
pub fn value(event: Event) -> u8
    ensures { result ≡ value_of event }
{
    match event {
        Event::Done { value, .. } => value,
        Event::Panic { number, .. } | Event::Refused { number } => number,
        _ => 0,
    }
}

// The number of sleepers that an event woke.
pub fn woken(event: Event) -> u8
    ensures { result ≡ woken_of event }
{
    match event {
        Event::Moved { woken } | Event::Done { woken, .. } | Event::Panic { woken, .. } => woken,
        Event::Woken => 1,
        _ => 0,
    }
}

// A step's event, once the sleepers that it wakes are counted.
pub fn tell(event: Event, count: u8) -> Event
    ensures { result ≡ tell_of event count }
{
    let woken = count;
    match event {
        Event::Moved { .. } => Event::Moved { woken },
        Event::Done { value, .. } => Event::Done { value, woken },
        Event::Panic { number, .. } => Event::Panic { number, woken },
        other => other,
    }
}

// A step as what the thread at `at` does; an object's hold changes.
fn planned(at: At, object: u8, s: Step<At>) -> Plan
    ensures { result ≡ plan_of at object s }
{
    let awake = |at| Thread { at, asleep: false };
    let asleep = Thread { at, asleep: true };
    let (next, event) = match s.next {
        Next::Moved(at) => (awake(at), Event::Moved { woken: 0 }),
        Next::Asleep => (asleep, Event::Slept),
        Next::Ended(value) => (awake(At::Idle), Event::Done { value, woken: 0 }),
        Next::Panics(panic) => {
            let number = panic.number();
            (awake(At::Idle), Event::Panic { number, woken: 0 })
        }
        Next::Closure(at) => (awake(at), Event::Closure),
    };
    Plan {
        word: s.word,
        next,
        hold: s.hold,
        object,
        wake: s.wake,
        event,
    }
}

// A call on the object of this number; a Parker's call names none. Its module's positions stand among all so:
#[derive(Clone, Copy)]
struct On(u8);

impl Within<MutexAt, At> for On {
    ghost within = { λ on at. A.Mutex on.0 at };

    fn within(self, at: MutexAt) -> At {
        At::Mutex { mutex: self.0, at }
    }
}

impl Within<RwLockAt, At> for On {
    ghost within = { λ on at. A.RwLock on.0 at };

    fn within(self, at: RwLockAt) -> At {
        At::RwLock { lock: self.0, at }
    }
}

impl Within<CondvarAt, At> for On {
    ghost within = { λ on at. A.Condvar on.0 at };

    fn within(self, at: CondvarAt) -> At {
        At::Condvar {
            condvar: self.0,
            at,
        }
    }
}

impl Within<OnceAt, At> for On {
    ghost within = { λ on at. A.Once on.0 at };

    fn within(self, at: OnceAt) -> At {
        At::Once { once: self.0, at }
    }
}

impl Within<ParkerAt, At> for On {
    ghost within = { λ on at. A.Parker at };

    fn within(self, at: ParkerAt) -> At {
        At::Parker { at }
    }
}

// One step of a thread at `at`, over the word that it is about; `fails`: where that is a weak exchange, it
// fails; `anyone`: whether somebody is asleep on the word. An idle thread has no step: it stays.
pub fn decide(at: At, fails: bool, word: u32, anyone: bool) -> Plan
    ensures { result ≡ decide_of at fails word anyone }
{
    match at {
        At::Idle => planned(at, 0, Step::moves(word, at)),
        At::Mutex { mutex, at: p } => {
            let step = mutex::decide(p, fails, word, anyone);
            planned(at, mutex, step.map(On(mutex)))
        }
        At::RwLock { lock, at: p } => {
            let step = rwlock::decide(p, fails, word, anyone);
            planned(at, lock, step.map(On(lock)))
        }
        At::Condvar { condvar, at: p } => {
            let step = condvar::decide(p, fails, word, anyone);
            let object = condvar::object(condvar, p);
            planned(at, object, step.map(On(condvar)))
        }
        At::Once { once, at: p } => {
            let step = once::decide(p, fails, word, anyone);
            planned(at, 0, step.map(On(once)))
        }
        At::Parker { at: p } => {
            let step = thread_parking::decide(p, fails, word, anyone);
            planned(at, 0, step.map(On(0)))
        }
    }
}

// Where a call starts; `mutex` is the one that a condvar wait names.
pub fn start(call: Call, object: u8, mutex: u8) -> At
    ensures { result ≡ entry_of (number_of call) object mutex }
{
    let at_mutex = |call| At::Mutex {
        mutex: object,
        at: mutex::entry(call),
    };
    let at_lock = |call| At::RwLock {
        lock: object,
        at: rwlock::entry(call),
    };
    let at_condvar = |call| At::Condvar {
        condvar: object,
        at: condvar::entry(call),
    };
    let at_once = |call| At::Once {
        once: object,
        at: once::entry(call),
    };
    let at_parker = |call| At::Parker {
        at: thread_parking::entry(call),
    };
    match call {
        Call::Lock => at_mutex(MutexCall::Lock),
        Call::TryLock => at_mutex(MutexCall::TryLock),
        Call::Unlock => at_mutex(MutexCall::Unlock),
        Call::Read => at_lock(RwLockCall::Read),
        Call::TryRead => at_lock(RwLockCall::TryRead),
        Call::ReadUnlock => at_lock(RwLockCall::ReadUnlock),
        Call::Write => at_lock(RwLockCall::Write),
        Call::TryWrite => at_lock(RwLockCall::TryWrite),
        Call::WriteUnlock => at_lock(RwLockCall::WriteUnlock),
        Call::Downgrade => at_lock(RwLockCall::Downgrade),
        Call::CondvarWait => at_condvar(CondvarCall::Wait { mutex }),
        Call::NotifyOne => at_condvar(CondvarCall::NotifyOne),
        Call::NotifyAll => at_condvar(CondvarCall::NotifyAll),
        Call::OnceCall => at_once(OnceCall::Call { ignores: false }),
        Call::OnceCallForce => at_once(OnceCall::Call { ignores: true }),
        Call::OnceWait => at_once(OnceCall::Wait { ignores: false }),
        Call::OnceWaitForce => at_once(OnceCall::Wait { ignores: true }),
        Call::IsCompleted => at_once(OnceCall::IsCompleted),
        Call::Park => at_parker(ParkerCall::Park),
        Call::Unpark => at_parker(ParkerCall::Unpark { thread: object }),
    }
}

// Where a call starts, by its number: a number that names no call starts none.
pub fn entry(call: u8, object: u8, mutex: u8) -> At
    ensures { result ≡ entry_of call object mutex }
{
    match Call::try_from(call) {
        Ok(call) => start(call, object, mutex),
        Err(NoCall) => At::Idle,
    }
}

fn mutex_call(at: MutexAt) -> Call
    ensures { number_of result ≡ mutex_call at }
{
    match at {
        MutexAt::Lock { .. } => Call::Lock,
        MutexAt::TryLock => Call::TryLock,
        MutexAt::Unlock { .. } => Call::Unlock,
    }
}

fn rwlock_call(at: RwLockAt) -> Call
    ensures { number_of result ≡ rwlock_call at }
{
    match at {
        RwLockAt::Read { .. } => Call::Read,
        RwLockAt::TryRead { .. } => Call::TryRead,
        RwLockAt::ReadUnlock | RwLockAt::Wake { writer: false, .. } => Call::ReadUnlock,
        RwLockAt::Write { .. } => Call::Write,
        RwLockAt::TryWrite { .. } => Call::TryWrite,
        RwLockAt::WriteUnlock | RwLockAt::Wake { writer: true, .. } => Call::WriteUnlock,
        RwLockAt::Downgrade { .. } => Call::Downgrade,
    }
}

fn condvar_call(at: CondvarAt) -> Call
    ensures { number_of result ≡ condvar_call at }
{
    match at {
        CondvarAt::Wait { .. } => Call::CondvarWait,
        CondvarAt::Notify { all: false, .. } => Call::NotifyOne,
        CondvarAt::Notify { all: true, .. } => Call::NotifyAll,
    }
}

fn once_call(at: OnceAt) -> Call
    ensures { number_of result ≡ once_call at }
{
    match at {
        OnceAt::Call { ignores: false, .. } => Call::OnceCall,
        OnceAt::Call { ignores: true, .. } => Call::OnceCallForce,
        OnceAt::Wait { ignores: false, .. } => Call::OnceWait,
        OnceAt::Wait { ignores: true, .. } => Call::OnceWaitForce,
        OnceAt::IsCompleted => Call::IsCompleted,
    }
}

fn parker_call(at: ParkerAt) -> Call
    ensures { number_of result ≡ parker_call at }
{
    match at {
        ParkerAt::Park { .. } => Call::Park,
        ParkerAt::Unpark { .. } => Call::Unpark,
    }
}

// The call that a position is in; none for an idle thread.
pub fn call_of(at: At) -> Option<Call>
    ensures { told_call result ≡ call_of at }
{
    match at {
        At::Idle => None,
        At::Mutex { at, .. } => Some(mutex_call(at)),
        At::RwLock { at, .. } => Some(rwlock_call(at)),
        At::Condvar { at, .. } => Some(condvar_call(at)),
        At::Once { at, .. } => Some(once_call(at)),
        At::Parker { at } => Some(parker_call(at)),
    }
}

// The number of the word that the next operation of thread t is about, in the row of all words, where there
// is one.
pub fn operand(t: u8, at: At) -> Option<usize>
    ensures { result ≡ found WORDS (operand_of t at) }
{
    match at {
        At::Idle => None,
        At::Mutex { mutex, at } => word_number(mutex::operand(at), mutex),
        At::RwLock { lock, at } => word_number(rwlock::operand(at), lock),
        At::Condvar { condvar, at } => {
            word_number(condvar::operand(at), condvar::object(condvar, at))
        }
        At::Once { once, at } => word_number(once::operand(at), once),
        At::Parker { at } => {
            word_number(thread_parking::operand(at), thread_parking::parker(t, at))
        }
    }
}

// Where a thread stands after its futex_wait, woken or not.
pub fn after_wait(at: At) -> At
    ensures { result ≡ after_wait at }
{
    match at {
        At::Idle => At::Idle,
        At::Mutex { mutex, at } => At::Mutex {
            mutex,
            at: mutex::after_wait(at),
        },
        At::RwLock { lock, at } => At::RwLock {
            lock,
            at: rwlock::after_wait(at),
        },
        At::Condvar { condvar, at } => At::Condvar {
            condvar,
            at: condvar::after_wait(at),
        },
        At::Once { once, at } => At::Once {
            once,
            at: once::after_wait(at),
        },
        At::Parker { at } => At::Parker {
            at: thread_parking::after_wait(at),
        },
    }
}

// Whether the next operation is a futex_wait: a sleeper stands at one.
pub fn waits(at: At) -> bool
    ensures { result ≡ waits_of at }
{
    match at {
        At::Idle => false,
        At::Mutex { at, .. } => mutex::waits(at),
        At::RwLock { at, .. } => rwlock::waits(at),
        At::Condvar { at, .. } => condvar::waits(at),
        At::Once { at, .. } => once::waits(at),
        At::Parker { at } => thread_parking::waits(at),
    }
}

// Whether the next operation may wake a sleeper.
pub fn may_wake(at: At) -> bool
    ensures { result ≡ may_wake at }
{
    match at {
        At::Idle => false,
        At::Mutex { at, .. } => mutex::may_wake(at),
        At::RwLock { at, .. } => rwlock::may_wake(at),
        At::Condvar { at, .. } => condvar::may_wake(at),
        At::Once { at, .. } => once::may_wake(at),
        At::Parker { at } => thread_parking::may_wake(at),
    }
}

// Whether the next operation is a weak exchange.
pub fn weak_next(at: At) -> bool
    ensures { result ≡ weak_next at }
{
    match at {
        At::Idle => false,
        At::Mutex { at, .. } => mutex::weak_next(at),
        At::RwLock { at, .. } => rwlock::weak_next(at),
        At::Condvar { at, .. } => condvar::weak_next(at),
        At::Once { at, .. } => once::weak_next(at),
        At::Parker { at } => thread_parking::weak_next(at),
    }
}

// Whether the values carried are such as the source's tests let come to this position.
pub fn passed(at: At) -> bool
    ensures { result ≡ passed_of at }
{
    match at {
        At::Idle => true,
        At::Mutex { at, .. } => mutex::passed(at),
        At::RwLock { at, .. } => rwlock::passed(at),
        At::Condvar { at, .. } => condvar::passed(at),
        At::Once { at, .. } => once::passed(at),
        At::Parker { at } => thread_parking::passed(at),
    }
}

// Whether a thread is in no call.
pub fn is_idle(at: At) -> bool
    ensures { result ≡ is_idle at }
{
    matches!(at, At::Idle)
}

// Whether a thread is in a Once's closure.
pub fn in_closure(at: At) -> bool
    ensures { result ≡ in_closure at }
{
    match at {
        At::Once { at, .. } => once::in_closure(at),
        _ => false,
    }
}

// The hold that a thread still before the operation that frees or downgrades has, and of which object.
pub fn needs(at: At) -> Need
    ensures { result ≡ need_of at }
{
    let (hold, object) = match at {
        At::Idle => (Needs::Nothing, 0),
        At::Mutex { mutex, at } => (mutex::needs(at), mutex),
        At::RwLock { lock, at } => (rwlock::needs(at), lock),
        At::Condvar { at, .. } => (condvar::needs(at), condvar::mutex_of(at)),
        At::Once { once, at } => (once::needs(at), once),
        At::Parker { at } => (thread_parking::needs(at), 0),
    };
    Need { hold, object }
}

fn condvar_exists(at: CondvarAt) -> bool
    ensures { result ≡ condvar_exists at }
{
    match at {
        CondvarAt::Wait { mutex, .. } => usize::from(mutex) < MUTEXES,
        CondvarAt::Notify { .. } => true,
    }
}

fn parker_exists(at: ParkerAt) -> bool
    ensures { result ≡ parker_exists at }
{
    match at {
        ParkerAt::Park { .. } => true,
        ParkerAt::Unpark { thread, .. } => usize::from(thread) < THREADS,
    }
}

// Whether every object that a position names exists.
pub fn exists(at: At) -> bool
    ensures { result ≡ exists at }
{
    match at {
        At::Idle => true,
        At::Mutex { mutex, .. } => usize::from(mutex) < MUTEXES,
        At::RwLock { lock, .. } => usize::from(lock) < RWLOCKS,
        At::Condvar { condvar, at } => usize::from(condvar) < CONDVARS && condvar_exists(at),
        At::Once { once, .. } => usize::from(once) < ONCES,
        At::Parker { at } => parker_exists(at),
    }
}
