// std's futex Once (once/futex.rs) as a step machine: a step runs one atomic operation or one futex
// call, then the local code up to the next one. Dropping the CompletionGuard is the positions after the
// closure.
#![tactic(auto, unfolding(crate::specs::Once::after_wait, crate::specs::Once::call_after_wait, crate::specs::Once::call_in_closure, crate::specs::Once::call_may_wake, crate::specs::Once::call_of, crate::specs::Once::call_passed, crate::specs::Once::call_top, crate::specs::Once::call_waits, crate::specs::Once::call_weak_next, crate::specs::Once::close_of, crate::specs::Once::decide_of, crate::specs::Once::drops_to, crate::specs::Once::entry_of, crate::specs::Once::finishes, crate::specs::Once::in_closure, crate::specs::Once::is_completed_of, crate::specs::Once::is_panicked, crate::specs::Once::may_wake, crate::specs::Once::needs_of, crate::specs::Once::operand_of, crate::specs::Once::passed_of, crate::specs::Once::queued_passed, crate::specs::Once::queues, crate::specs::Once::running_passed, crate::specs::Once::wait_after_wait, crate::specs::Once::wait_of, crate::specs::Once::wait_passed, crate::specs::Once::wait_top, crate::specs::Once::wait_waits, crate::specs::Once::wait_weak_next, crate::specs::Once::waits_of, crate::specs::Once::weak_next))]

ghost use Rattle.std.specs.Prelude.{◌≡◌, ◌≤◌};
ghost use Rattle.words.specs.Once.{QUEUED};
ghost use Rattle.once.specs.Once.{entry_of, queues, call_top, wait_top, drops_to, is_panicked, finishes, call_after_wait, wait_after_wait, call_of, wait_of, is_completed_of, decide_of, close_of, in_closure, after_wait, operand_of, call_weak_next, wait_weak_next, weak_next, running_passed, call_passed, queued_passed, wait_passed, passed_of, needs_of, call_waits, wait_waits, waits_of, may_wake};

use words::{Hold, Kind, Needs, OnceWord, Panic, Step, Wake};

// `ignores`: ignore_poisoning.
#[derive(Clone, Copy)]
pub enum OnceCall {
    Call { ignores: bool },
    Wait { ignores: bool },
    IsCompleted,
}

// How a closure ends: it returns, it returns after poison(), it panics.
#[derive(Clone, Copy)]
pub enum Ending {
    Returned,
    Poisoned,
    Panicked,
}

// Where in `call` a thread stands, by the operation that is next. `seen` is state_and_queued as the loop
// last saw it, with QUEUED added where the thread has set it.
#[derive(Clone, Copy)]
pub enum CallAt {
    Load,
    // of what was seen for RUNNING, weak
    ExchangeRunning { seen: u32 },
    // no operation: in the closure
    Closure,
    // the guard's swap
    Swap { ending: Ending },
    // the guard's futex_wake_all
    WakeAll { panicking: bool },
    // of the state for the same with QUEUED, weak
    ExchangeQueued { seen: u32 },
    // futex_wait on what was seen
    Wait { seen: u32 },
}

// Where in `wait` a thread stands.
#[derive(Clone, Copy)]
pub enum WaitAt {
    Load,
    ExchangeQueued { seen: u32 },
    Wait { seen: u32 },
}

// Where in a call on a Once a thread stands.
#[derive(Clone, Copy)]
pub enum OnceAt {
    Call { ignores: bool, at: CallAt },
    Wait { ignores: bool, at: WaitAt },
    IsCompleted,
}

pub fn entry(call: OnceCall) -> OnceAt
    ensures { result ≡ entry_of call }
{
    match call {
        OnceCall::Call { ignores } => OnceAt::Call {
            ignores,
            at: CallAt::Load,
        },
        OnceCall::Wait { ignores } => OnceAt::Wait {
            ignores,
            at: WaitAt::Load,
        },
        OnceCall::IsCompleted => OnceAt::IsCompleted,
    }
}

// Set the QUEUED bit if it has not already been set, and wait.
fn queues(waiting: OnceAt, setting: OnceAt, seen: u32) -> Step<OnceAt>
    ensures { result ≡ queues waiting setting seen }
{
    if OnceWord::is_queued(seen) {
        return Step::moves(seen, waiting);
    }
    Step::moves(seen, setting)
}

// The top of call's loop, with the value seen.
fn call_top(ignores: bool, seen: u32) -> Step<OnceAt>
    ensures { result ≡ call_top ignores seen }
{
    let to = |at| OnceAt::Call { ignores, at };
    let state = OnceWord::state(seen);
    if state == OnceWord::COMPLETE {
        return Step::ends(seen, 1, Hold::Same, Wake::None);
    }
    if state == OnceWord::POISONED && !ignores {
        // Panic to propagate the poison.
        return Step::panics(seen, Panic::OncePoisoned, Wake::None);
    }
    if state == OnceWord::POISONED || state == OnceWord::INCOMPLETE {
        // Try to register the current thread as the one running.
        return Step::moves(seen, to(CallAt::ExchangeRunning { seen }));
    }
    // All other values are RUNNING.
    queues(
        to(CallAt::Wait { seen }),
        to(CallAt::ExchangeQueued { seen }),
        seen,
    )
}

// The top of wait's loop, with the value seen.
fn wait_top(ignores: bool, seen: u32) -> Step<OnceAt>
    ensures { result ≡ wait_top ignores seen }
{
    let to = |at| OnceAt::Wait { ignores, at };
    let state = OnceWord::state(seen);
    if state == OnceWord::COMPLETE {
        return Step::ends(seen, 1, Hold::Same, Wake::None);
    }
    if state == OnceWord::POISONED && !ignores {
        // Panic to propagate the poison.
        return Step::panics(seen, Panic::OncePoisoned, Wake::None);
    }
    queues(
        to(WaitAt::Wait { seen }),
        to(WaitAt::ExchangeQueued { seen }),
        seen,
    )
}

// set_state_on_drop_to
fn drops_to(ending: Ending) -> u32
    ensures { result ≡ drops_to ending }
{
    match ending {
        Ending::Returned => OnceWord::COMPLETE,
        Ending::Poisoned => OnceWord::POISONED,
        Ending::Panicked => OnceWord::POISONED,
    }
}

fn is_panicked(ending: Ending) -> bool
    ensures { result ≡ is_panicked ending }
{
    matches!(ending, Ending::Panicked)
}

// The guard's last step.
fn finishes(panicking: bool, word: u32, wake: Wake) -> Step<OnceAt>
    ensures { result ≡ finishes panicking word wake }
{
    if panicking {
        return Step::panics(word, Panic::InClosure, wake);
    }
    Step::ends(word, 1, Hold::Same, wake)
}

// One step of `call`.
pub fn call(ignores: bool, at: CallAt, fails: bool, word: u32) -> Step<OnceAt>
    ensures { result ≡ call_of ignores at fails word }
{
    let to = |at| OnceAt::Call { ignores, at };
    match at {
        CallAt::Load => call_top(ignores, word),
        CallAt::ExchangeRunning { seen } if words::exchanges(word, seen, fails) => {
            let running = OnceWord::running(OnceWord::is_queued(seen));
            Step::enters(running, to(CallAt::Closure))
        }
        CallAt::ExchangeRunning { .. } => call_top(ignores, word),
        CallAt::Closure => Step::enters(word, to(CallAt::Closure)),
        CallAt::Swap { ending } if OnceWord::is_queued(word) => {
            let panicking = is_panicked(ending);
            Step::moves(drops_to(ending), to(CallAt::WakeAll { panicking }))
        }
        CallAt::Swap { ending } => finishes(is_panicked(ending), drops_to(ending), Wake::None),
        CallAt::WakeAll { panicking } => finishes(panicking, word, Wake::All),
        CallAt::ExchangeQueued { seen } if words::exchanges(word, OnceWord::state(seen), fails) => {
            let seen = OnceWord::with_queued(seen);
            Step::moves(seen, to(CallAt::Wait { seen }))
        }
        CallAt::ExchangeQueued { .. } => call_top(ignores, word),
        CallAt::Wait { seen } if word == seen => Step::sleeps(word),
        CallAt::Wait { .. } => Step::moves(word, to(call_after_wait(at))),
    }
}

// One step of `wait`.
pub fn wait(ignores: bool, at: WaitAt, fails: bool, word: u32) -> Step<OnceAt>
    ensures { result ≡ wait_of ignores at fails word }
{
    let to = |at| OnceAt::Wait { ignores, at };
    match at {
        WaitAt::Load => wait_top(ignores, word),
        WaitAt::ExchangeQueued { seen } if words::exchanges(word, OnceWord::state(seen), fails) => {
            let seen = OnceWord::with_queued(seen);
            Step::moves(seen, to(WaitAt::Wait { seen }))
        }
        WaitAt::ExchangeQueued { .. } => wait_top(ignores, word),
        WaitAt::Wait { seen } if word == seen => Step::sleeps(word),
        WaitAt::Wait { .. } => Step::moves(word, to(wait_after_wait(at))),
    }
}

// One step of `is_completed`, which is all of it.
pub fn is_completed(word: u32) -> Step<OnceAt>
    ensures { result ≡ is_completed_of word }
{
    let value = u8::from(word == OnceWord::COMPLETE);
    Step::ends(word, value, Hold::Same, Wake::None)
}

// One step of a thread at `at`, over the Once's word. None of its calls asks whether it woke anybody.
pub fn decide(at: OnceAt, fails: bool, word: u32, anyone: bool) -> Step<OnceAt>
    ensures { result ≡ decide_of at fails word anyone }
{
    match at {
        OnceAt::Call { ignores, at } => call(ignores, at, fails, word),
        OnceAt::Wait { ignores, at } => wait(ignores, at, fails, word),
        OnceAt::IsCompleted => is_completed(word),
    }
}

// Where a call stands once its closure has ended so; a call that is in no closure stays.
pub fn close(ending: Ending, at: OnceAt) -> OnceAt
    ensures { result ≡ close_of ending at }
{
    match at {
        OnceAt::Call {
            ignores,
            at: CallAt::Closure,
        } => OnceAt::Call {
            ignores,
            at: CallAt::Swap { ending },
        },
        other => other,
    }
}

// Whether a call is in its closure.
pub fn in_closure(at: OnceAt) -> bool
    ensures { result ≡ in_closure at }
{
    matches!(
        at,
        OnceAt::Call {
            at: CallAt::Closure,
            ..
        }
    )
}

fn call_after_wait(at: CallAt) -> CallAt
    ensures { result ≡ call_after_wait at }
{
    match at {
        CallAt::Wait { .. } => CallAt::Load,
        other => other,
    }
}

fn wait_after_wait(at: WaitAt) -> WaitAt
    ensures { result ≡ wait_after_wait at }
{
    match at {
        WaitAt::Wait { .. } => WaitAt::Load,
        other => other,
    }
}

// Where a call stands after its futex_wait, woken or not.
pub fn after_wait(at: OnceAt) -> OnceAt
    ensures { result ≡ after_wait at }
{
    match at {
        OnceAt::Call { ignores, at } => OnceAt::Call {
            ignores,
            at: call_after_wait(at),
        },
        OnceAt::Wait { ignores, at } => OnceAt::Wait {
            ignores,
            at: wait_after_wait(at),
        },
        other => other,
    }
}

// The kind of word that the next operation is about: none in the closure.
pub fn operand(at: OnceAt) -> Kind
    ensures { result ≡ operand_of at }
{
    if in_closure(at) {
        return Kind::Nothing;
    }
    Kind::Once
}

fn call_weak_next(at: CallAt) -> bool
    ensures { result ≡ call_weak_next at }
{
    matches!(
        at,
        CallAt::ExchangeRunning { .. } | CallAt::ExchangeQueued { .. }
    )
}

fn wait_weak_next(at: WaitAt) -> bool
    ensures { result ≡ wait_weak_next at }
{
    matches!(at, WaitAt::ExchangeQueued { .. })
}

// Whether the next operation is a weak exchange.
pub fn weak_next(at: OnceAt) -> bool
    ensures { result ≡ weak_next at }
{
    match at {
        OnceAt::Call { at, .. } => call_weak_next(at),
        OnceAt::Wait { at, .. } => wait_weak_next(at),
        OnceAt::IsCompleted => false,
    }
}

fn running_passed(ignores: bool, seen: u32) -> bool
    ensures { result ≡ running_passed ignores seen }
{
    seen == OnceWord::INCOMPLETE
        || seen == OnceWord::INCOMPLETE + OnceWord::QUEUED
        || ignores && (seen == OnceWord::POISONED || seen == OnceWord::POISONED + OnceWord::QUEUED)
}

fn call_passed(ignores: bool, at: CallAt) -> bool
    ensures { result ≡ call_passed ignores at }
{
    match at {
        CallAt::ExchangeRunning { seen } => running_passed(ignores, seen),
        CallAt::ExchangeQueued { seen } => seen == OnceWord::RUNNING,
        CallAt::Wait { seen } => seen == OnceWord::RUNNING + OnceWord::QUEUED,
        _ => true,
    }
}

// A value that a wait carries: `queued` is the QUEUED bit that it has.
fn queued_passed(ignores: bool, queued: u32, seen: u32) -> bool
    requires { queued ≤ QUEUED }
    ensures { result ≡ queued_passed ignores queued seen }
{
    seen == OnceWord::RUNNING + queued
        || seen == OnceWord::INCOMPLETE + queued
        || ignores && seen == OnceWord::POISONED + queued
}

fn wait_passed(ignores: bool, at: WaitAt) -> bool
    ensures { result ≡ wait_passed ignores at }
{
    match at {
        WaitAt::Load => true,
        WaitAt::ExchangeQueued { seen } => queued_passed(ignores, 0, seen),
        WaitAt::Wait { seen } => queued_passed(ignores, OnceWord::QUEUED, seen),
    }
}

// Whether the values carried are such as the source's tests let come to this position.
pub fn passed(at: OnceAt) -> bool
    ensures { result ≡ passed_of at }
{
    match at {
        OnceAt::Call { ignores, at } => call_passed(ignores, at),
        OnceAt::Wait { ignores, at } => wait_passed(ignores, at),
        OnceAt::IsCompleted => true,
    }
}

// The hold that a call still before the operation that frees has.
pub fn needs(at: OnceAt) -> Needs
    ensures { result ≡ needs_of at }
{
    Needs::Nothing
}

fn call_waits(at: CallAt) -> bool
    ensures { result ≡ call_waits at }
{
    matches!(at, CallAt::Wait { .. })
}

fn wait_waits(at: WaitAt) -> bool
    ensures { result ≡ wait_waits at }
{
    matches!(at, WaitAt::Wait { .. })
}

// Whether the next operation is a futex_wait: a sleeper stands at one.
pub fn waits(at: OnceAt) -> bool
    ensures { result ≡ waits_of at }
{
    match at {
        OnceAt::Call { at, .. } => call_waits(at),
        OnceAt::Wait { at, .. } => wait_waits(at),
        OnceAt::IsCompleted => false,
    }
}

// Whether the next operation may wake a sleeper.
pub fn may_wake(at: OnceAt) -> bool
    ensures { result ≡ may_wake at }
{
    matches!(
        at,
        OnceAt::Call {
            at: CallAt::WakeAll { .. },
            ..
        }
    )
}
