// std's futex Parker (thread_parking/futex.rs) as a step machine: a step runs one atomic operation or
// one futex call, then the local code up to the next one.
#![tactic(auto, unfolding(crate::specs::ThreadParking::after_wait, crate::specs::ThreadParking::decide_of, crate::specs::ThreadParking::entry_of, crate::specs::ThreadParking::may_wake, crate::specs::ThreadParking::needs_of, crate::specs::ThreadParking::operand_of, crate::specs::ThreadParking::park_after_wait, crate::specs::ThreadParking::park_of, crate::specs::ThreadParking::park_waits, crate::specs::ThreadParking::parker_of, crate::specs::ThreadParking::passed_of, crate::specs::ThreadParking::unpark_may_wake, crate::specs::ThreadParking::unpark_of, crate::specs::ThreadParking::waits_of, crate::specs::ThreadParking::weak_next))]

ghost use Rattle.std.specs.Prelude.{◌≡◌};
ghost use Rattle.words.specs.Parker.{PARKED};
ghost use Rattle.thread_parking.specs.ThreadParking.{entry_of, park_of, unpark_of, decide_of, park_after_wait, after_wait, operand_of, parker_of, weak_next, passed_of, needs_of, waits_of, may_wake};

use words::{Hold, Kind, Needs, ParkerWord, Step, Wake};

#[derive(Clone, Copy)]
pub enum ParkerCall {
    // the calling thread's own Parker
    Park,
    // that of `thread`
    Unpark { thread: u8 },
}

// Where in `park` a thread stands, by the operation that is next.
#[derive(Clone, Copy)]
pub enum ParkAt {
    Subtract,
    // futex_wait on PARKED
    Wait,
    // NOTIFIED for EMPTY
    Exchange,
}

// Where in `unpark` a thread stands.
#[derive(Clone, Copy)]
pub enum UnparkAt {
    Swap,
    // futex_wake, of one
    Wake,
}

// Where in a call on a Parker a thread stands.
#[derive(Clone, Copy)]
pub enum ParkerAt {
    Park { at: ParkAt },
    Unpark { thread: u8, at: UnparkAt },
}

pub fn entry(call: ParkerCall) -> ParkerAt
    ensures { result ≡ entry_of call }
{
    match call {
        ParkerCall::Park => ParkerAt::Park {
            at: ParkAt::Subtract,
        },
        ParkerCall::Unpark { thread } => ParkerAt::Unpark {
            thread,
            at: UnparkAt::Swap,
        },
    }
}

// One step of `park`.
pub fn park(at: ParkAt, word: u32) -> Step<ParkerAt>
    ensures { result ≡ park_of PARKED at word }
{
    let to = |at| ParkerAt::Park { at };
    match at {
        // Change NOTIFIED=>EMPTY or EMPTY=>PARKED, and directly return in the first case.
        ParkAt::Subtract => {
            let less = ParkerWord::less_one(word);
            if ParkerWord::is_notified(word) {
                return Step::ends(less, 1, Hold::Same, Wake::None);
            }
            Step::moves(less, to(ParkAt::Wait))
        }
        // Wait for something to happen, assuming it's still set to PARKED.
        ParkAt::Wait if ParkerWord::is_parked(word) => Step::sleeps(word),
        ParkAt::Wait => Step::moves(word, to(park_after_wait(at))),
        // Change NOTIFIED=>EMPTY and return in that case. Else the wake up was spurious: we loop to try again.
        ParkAt::Exchange if ParkerWord::is_notified(word) => {
            Step::ends(ParkerWord::EMPTY, 1, Hold::Same, Wake::None)
        }
        ParkAt::Exchange => Step::moves(word, to(ParkAt::Wait)),
    }
}

// One step of `unpark`, of the Parker of `thread`.
pub fn unpark(thread: u8, at: UnparkAt, word: u32) -> Step<ParkerAt>
    ensures { result ≡ unpark_of PARKED thread at word }
{
    let at_wake = ParkerAt::Unpark {
        thread,
        at: UnparkAt::Wake,
    };
    match at {
        // Change PARKED=>NOTIFIED, EMPTY=>NOTIFIED, or NOTIFIED=>NOTIFIED, and wake the thread in the first case.
        UnparkAt::Swap if ParkerWord::is_parked(word) => {
            Step::moves(ParkerWord::NOTIFIED, at_wake)
        }
        UnparkAt::Swap => Step::ends(ParkerWord::NOTIFIED, 1, Hold::Same, Wake::None),
        UnparkAt::Wake => Step::ends(word, 1, Hold::Same, Wake::One),
    }
}

// One step of a thread at `at`, over the Parker's word. No exchange of this module is weak, and none of
// its calls asks whether it woke anybody.
pub fn decide(at: ParkerAt, fails: bool, word: u32, anyone: bool) -> Step<ParkerAt>
    ensures { result ≡ decide_of PARKED at fails word anyone }
{
    match at {
        ParkerAt::Park { at } => park(at, word),
        ParkerAt::Unpark { thread, at } => unpark(thread, at, word),
    }
}

fn park_after_wait(at: ParkAt) -> ParkAt
    ensures { result ≡ park_after_wait at }
{
    match at {
        ParkAt::Wait => ParkAt::Exchange,
        other => other,
    }
}

// Where a call stands after its futex_wait, woken or not.
pub fn after_wait(at: ParkerAt) -> ParkerAt
    ensures { result ≡ after_wait at }
{
    match at {
        ParkerAt::Park { at } => ParkerAt::Park {
            at: park_after_wait(at),
        },
        other => other,
    }
}

// The kind of word that the next operation is about.
pub fn operand(at: ParkerAt) -> Kind
    ensures { result ≡ operand_of at }
{
    Kind::Parker
}

// Whose Parker it is about, where thread `own` stands at `at`.
pub fn parker(own: u8, at: ParkerAt) -> u8
    ensures { result ≡ parker_of own at }
{
    match at {
        ParkerAt::Park { .. } => own,
        ParkerAt::Unpark { thread, .. } => thread,
    }
}

// Whether the next operation is a weak exchange.
pub fn weak_next(at: ParkerAt) -> bool
    ensures { result ≡ weak_next at }
{
    false
}

// Whether the values carried are such as the source's tests let come to this position.
pub fn passed(at: ParkerAt) -> bool
    ensures { result ≡ passed_of at }
{
    true
}

// The hold that a call still before the operation that frees has.
pub fn needs(at: ParkerAt) -> Needs
    ensures { result ≡ needs_of at }
{
    Needs::Nothing
}

// Whether the next operation is a futex_wait: a sleeper stands at one.
pub fn waits(at: ParkerAt) -> bool
    ensures { result ≡ waits_of at }
{
    matches!(at, ParkerAt::Park { at: ParkAt::Wait })
}

// Whether the next operation may wake a sleeper.
pub fn may_wake(at: ParkerAt) -> bool
    ensures { result ≡ may_wake at }
{
    matches!(
        at,
        ParkerAt::Unpark {
            at: UnparkAt::Wake,
            ..
        }
    )
}
