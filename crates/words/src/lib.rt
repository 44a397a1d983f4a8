// The kinds of words that the five modules keep, each with its constants, its tests and its operations;
// and what an operation on a word may do beside storing: change a hold, wake sleepers.
#![tactic(auto, unfolding(crate::specs::Atomic::wrapping_add, crate::specs::Atomic::wrapping_sub, crate::specs::Atomic::exchanges, crate::specs::Once::state_of, crate::specs::Once::is_queued, crate::specs::Parker::less_one, crate::specs::RwLock::count, crate::specs::RwLock::readers_waiting, crate::specs::RwLock::writers_waiting, crate::specs::RwLock::is_unlocked, crate::specs::RwLock::is_write_locked, crate::specs::RwLock::has_readers_waiting, crate::specs::RwLock::has_writers_waiting, crate::specs::RwLock::is_read_lockable, crate::specs::RwLock::is_read_lockable_after_wakeup, crate::specs::RwLock::has_reached_max_readers, crate::specs::RwLock::with_write_locked, crate::specs::RwLock::with_readers_waiting, crate::specs::RwLock::with_writers_waiting))]

ghost use Rattle.std.specs.Prelude.{◌≡◌};
ghost use Rattle.words.specs.Atomic.{exchanges, wrapping_add, wrapping_sub};
ghost use Rattle.words.specs.Counter.{incremented};
ghost use Rattle.words.specs.Panic.{number_of};
ghost use Rattle.words.specs.Steps.{moves_with, moves, sleeps, ends, panics, enters, map_step, then_step};
ghost use Rattle.words.specs.Mutex.{is_contended, is_locked, is_unlocked as is_mutex_unlocked};
ghost use Rattle.words.specs.Once.{is_queued, state_of, running_with, with_queued};
ghost use Rattle.words.specs.Parker.{PARKED, is_notified, is_parked, less_one};
ghost use Rattle.words.specs.RwLock.{count, is_unlocked, is_write_locked, has_readers_waiting, has_writers_waiting, is_read_lockable, is_read_lockable_after_wakeup, has_reached_max_readers, read_locked, read_unlocked, write_locked, write_unlocked, downgraded, with_write_locked, with_readers_waiting, without_readers_waiting, with_writers_waiting};

// What a word is, and so where it stands among the words of a world. `Nothing`: no operation is next.
#[derive(Clone, Copy)]
pub enum Kind {
    Nothing,
    Mutex,
    RwLock,
    WriterNotify,
    Condvar,
    Once,
    Parker,
}

// What an operation does to the stepping thread's hold of the object that the word belongs to.
#[derive(Clone, Copy)]
pub enum Hold {
    Same,
    TakeMutex,
    FreeMutex,
    TakeRead,
    FreeRead,
    TakeWrite,
    FreeWrite,
    // the write hold becomes one read hold
    Downgrade,
}

// Which hold an operation that frees or downgrades asks for.
#[derive(Clone, Copy)]
pub enum Needs {
    Nothing,
    Mutex,
    Read,
    Write,
}

// Whom a futex call wakes, of those asleep on the word.
#[derive(Clone, Copy)]
pub enum Wake {
    None,
    One,
    All,
}

// The spins of a thread that finds a lock taken, before it goes on to wait.
pub const SPINS: u8 = 100;

// The panics that a call can end with.
#[derive(Clone, Copy, Debug, PartialEq, Eq)]
pub enum Panic {
    // "too many active read locks on RwLock"
    TooManyReaders,
    // "Once instance has previously been poisoned"
    OncePoisoned,
    // a Once's closure panicked
    InClosure,
}

impl Panic {
    // The number that the panic is told with.
    pub fn number(self) -> u8
        ensures { result ≡ number_of self }
    {
        match self {
            Panic::TooManyReaders => 1,
            Panic::OncePoisoned => 2,
            Panic::InClosure => 3,
        }
    }
}

// Where a step leads: on to a position of its module, to sleep where it stands, to the end of the call with
// the value that is told, to a panic, or into a Once's closure.
#[derive(Clone, Copy)]
pub enum Next<A> {
    Moved(A),
    Asleep,
    Ended(u8),
    Panics(Panic),
    Closure(A),
}

// What a step does: the word's new value, where it leads, the hold that changes, and whom it wakes.
#[derive(Clone, Copy)]
pub struct Step<A> {
    pub word: u32,
    pub next: Next<A>,
    pub hold: Hold,
    pub wake: Wake,
}

// Where a call stands in a greater one, whose positions are of type B: a position of it, as one of those.
pub trait Within<A, B> {
    ghost within: { Self → A → B };

    fn within(self, at: A) -> B
        ensures { result ≡ within self at };
}

impl<A: Copy + Drop> Step<A> {
    pub fn moves_with(word: u32, at: A, hold: Hold, wake: Wake) -> Self
        ensures { result ≡ moves_with word at hold wake }
    {
        let next = Next::Moved(at);
        Step {
            word,
            next,
            hold,
            wake,
        }
    }

    pub fn moves(word: u32, at: A) -> Self
        ensures { result ≡ moves word at }
    {
        Step::moves_with(word, at, Hold::Same, Wake::None)
    }

    pub fn sleeps(word: u32) -> Self
        ensures { result ≡ sleeps word }
    {
        Step {
            word,
            next: Next::Asleep,
            hold: Hold::Same,
            wake: Wake::None,
        }
    }

    pub fn ends(word: u32, value: u8, hold: Hold, wake: Wake) -> Self
        ensures { result ≡ ends word value hold wake }
    {
        let next = Next::Ended(value);
        Step {
            word,
            next,
            hold,
            wake,
        }
    }

    pub fn panics(word: u32, panic: Panic, wake: Wake) -> Self
        ensures { result ≡ panics word panic wake }
    {
        Step {
            word,
            next: Next::Panics(panic),
            hold: Hold::Same,
            wake,
        }
    }

    pub fn enters(word: u32, at: A) -> Self
        ensures { result ≡ enters word at }
    {
        Step {
            word,
            next: Next::Closure(at),
            hold: Hold::Same,
            wake: Wake::None,
        }
    }

    // .. as one of a greater call.
    pub fn map<B, P: Within<A, B> + Copy + Drop>(self, place: P) -> Step<B>
        ensures { result ≡ map_step (P.within place) self }
    {
        let next = match self.next {
            Next::Moved(at) => Next::Moved(place.within(at)),
            Next::Asleep => Next::Asleep,
            Next::Ended(value) => Next::Ended(value),
            Next::Panics(panic) => Next::Panics(panic),
            Next::Closure(at) => Next::Closure(place.within(at)),
        };
        Step {
            word: self.word,
            next,
            hold: self.hold,
            wake: self.wake,
        }
    }

    // .. that goes on at `after` where this one ends.
    pub fn then<B: Copy + Drop, P: Within<A, B> + Copy + Drop>(self, place: P, after: B) -> Step<B>
        ensures { result ≡ then_step (P.within place) after self }
    {
        let next = match self.next {
            Next::Moved(at) => Next::Moved(place.within(at)),
            Next::Asleep => Next::Asleep,
            Next::Ended(_) => Next::Moved(after),
            Next::Panics(panic) => Next::Panics(panic),
            Next::Closure(at) => Next::Closure(place.within(at)),
        };
        Step {
            word: self.word,
            next,
            hold: self.hold,
            wake: self.wake,
        }
    }
}

// Whether compare_exchange_weak(expected, ..) stores: the word is as expected, and the exchange does not
// fail all the same, as a weak one may.
pub fn exchanges(word: u32, expected: u32, fails: bool) -> bool
    ensures { result ≡ exchanges word expected fails }
{
    word == expected && !fails
}

// fetch_add, as what it stores: sums wrap.
pub fn fetch_add(word: u32, n: u32) -> u32
    ensures { result ≡ wrapping_add word n }
{
    word.wrapping_add(n)
}

// fetch_sub, as what it stores: differences wrap.
pub fn fetch_sub(word: u32, n: u32) -> u32
    ensures { result ≡ wrapping_sub word n }
{
    word.wrapping_sub(n)
}

// The state of a mutex (001).
#[derive(Drop)]
pub struct MutexWord;

impl MutexWord {
    pub const UNLOCKED: u32 = 0;

    // locked, no other threads waiting
    pub const LOCKED: u32 = 1;

    // locked, and other threads waiting (contended)
    pub const CONTENDED: u32 = 2;

    pub fn is_unlocked(state: u32) -> bool
        ensures { result ≡ is_mutex_unlocked state }
    {
        state == Self::UNLOCKED
    }

    pub fn is_locked(state: u32) -> bool
        ensures { result ≡ is_locked state }
    {
        state == Self::LOCKED
    }

    pub fn is_contended(state: u32) -> bool
        ensures { result ≡ is_contended state }
    {
        state == Self::CONTENDED
    }
}

// The state of a Parker (004).
#[derive(Drop)]
pub struct ParkerWord;

impl ParkerWord {
    // the largest value, so that one less than EMPTY is PARKED
    pub const PARKED: u32 = 0xFFFF_FFFF;

    pub const EMPTY: u32 = 0;

    pub const NOTIFIED: u32 = 1;

    pub fn is_parked(state: u32) -> bool
        ensures { result ≡ is_parked PARKED state }
    {
        state == Self::PARKED
    }

    pub fn is_notified(state: u32) -> bool
        ensures { result ≡ is_notified state }
    {
        state == Self::NOTIFIED
    }

    // NOTIFIED becomes EMPTY, and EMPTY becomes PARKED.
    pub fn less_one(state: u32) -> u32
        ensures { result ≡ less_one PARKED state }
    {
        fetch_sub(state, 1)
    }
}

// A condvar's word (003) and an RwLock's writer_notify (000): one more for each notification.
#[derive(Drop)]
pub struct CounterWord;

impl CounterWord {
    pub fn incremented(word: u32) -> u32
        ensures { result ≡ incremented word }
    {
        fetch_add(word, 1)
    }
}

// The state of a Once (002), with the bit that says whether threads wait for it.
#[derive(Drop)]
pub struct OnceWord;

impl OnceWord {
    // No initialization has run yet, and no thread is using the Once.
    pub const INCOMPLETE: u32 = 3;

    // A thread tried to initialize the Once and panicked. No thread is using it.
    pub const POISONED: u32 = 2;

    // A thread is running the initialization; it may succeed, so all others wait for it.
    pub const RUNNING: u32 = 1;

    // Initialization has completed, and all calls finish at once.
    pub const COMPLETE: u32 = 0;

    // Threads wait. May only be set if the state is not COMPLETE.
    pub const QUEUED: u32 = 4;

    pub const STATE_MASK: u32 = 3;

    pub fn state(seen: u32) -> u32
        ensures { result ≡ state_of seen }
    {
        seen & Self::STATE_MASK
    }

    pub fn is_queued(seen: u32) -> bool
        ensures { result ≡ is_queued seen }
    {
        seen & Self::QUEUED != 0
    }

    // state_and_queued += QUEUED
    pub fn with_queued(seen: u32) -> u32
        ensures { result ≡ with_queued seen }
    {
        fetch_add(seen, Self::QUEUED)
    }

    // RUNNING + if queued { QUEUED } else { 0 }
    pub fn running(queued: bool) -> u32
        ensures { result ≡ running_with queued }
    {
        Self::RUNNING + if queued { Self::QUEUED } else { 0 }
    }
}

// The state of an RwLock (000): a 30-bit count of readers and two flags.
// Bits 0..30:
//   0: unlocked
//   1..=0x3FFF_FFFE: locked by that many readers
//   0x3FFF_FFFF: write locked
// Bit 30: readers are waiting on this futex.
// Bit 31: writers are waiting on the writer_notify futex.
#[derive(Drop)]
pub struct RwLockWord;

impl RwLockWord {
    pub const READ_LOCKED: u32 = 1;

    pub const MASK: u32 = (1 << 30) - 1;

    pub const WRITE_LOCKED: u32 = Self::MASK;

    // READ_LOCKED - WRITE_LOCKED, modulo 2^32
    pub const DOWNGRADE: u32 = 0xC000_0002;

    pub const MAX_READERS: u32 = Self::MASK - 1;

    pub const READERS_WAITING: u32 = 1 << 30;

    pub const WRITERS_WAITING: u32 = 1 << 31;

    // state & MASK
    pub fn count(state: u32) -> u32
        ensures { result ≡ count state }
    {
        state & Self::MASK
    }

    pub fn is_unlocked(state: u32) -> bool
        ensures { result ≡ is_unlocked state }
    {
        Self::count(state) == 0
    }

    pub fn is_write_locked(state: u32) -> bool
        ensures { result ≡ is_write_locked state }
    {
        Self::count(state) == Self::WRITE_LOCKED
    }

    pub fn has_readers_waiting(state: u32) -> bool
        ensures { result ≡ has_readers_waiting state }
    {
        state & Self::READERS_WAITING != 0
    }

    pub fn has_writers_waiting(state: u32) -> bool
        ensures { result ≡ has_writers_waiting state }
    {
        state & Self::WRITERS_WAITING != 0
    }

    // No where the count could overflow, and no where anybody waits: with readers waiting on a lock
    // that is free, an unlocking thread may be waking writers, which come first; it wakes the readers
    // too, if need be.
    pub fn is_read_lockable(state: u32) -> bool
        ensures { result ≡ is_read_lockable state }
    {
        Self::count(state) < Self::MAX_READERS
            && !Self::has_readers_waiting(state)
            && !Self::has_writers_waiting(state)
    }

    // The right of a reader woken by `downgrade`, which wakes all readers and leaves the lock read
    // locked: waiting writers do not hold it back, or only the former writer would get to read.
    pub fn is_read_lockable_after_wakeup(state: u32) -> bool
        ensures { result ≡ is_read_lockable_after_wakeup state }
    {
        Self::count(state) < Self::MAX_READERS
            && !Self::has_readers_waiting(state)
            && !Self::is_write_locked(state)
            && !Self::is_unlocked(state)
    }

    pub fn has_reached_max_readers(state: u32) -> bool
        ensures { result ≡ has_reached_max_readers state }
    {
        Self::count(state) == Self::MAX_READERS
    }

    // state + READ_LOCKED
    pub fn read_locked(state: u32) -> u32
        ensures { result ≡ read_locked state }
    {
        fetch_add(state, Self::READ_LOCKED)
    }

    // state - READ_LOCKED
    pub fn read_unlocked(state: u32) -> u32
        ensures { result ≡ read_unlocked state }
    {
        fetch_sub(state, Self::READ_LOCKED)
    }

    // state + WRITE_LOCKED
    pub fn write_locked(state: u32) -> u32
        ensures { result ≡ write_locked state }
    {
        fetch_add(state, Self::WRITE_LOCKED)
    }

    // state - WRITE_LOCKED
    pub fn write_unlocked(state: u32) -> u32
        ensures { result ≡ write_unlocked state }
    {
        fetch_sub(state, Self::WRITE_LOCKED)
    }

    // state + DOWNGRADE: the write lock goes, one read lock comes, both flags stay.
    pub fn downgraded(state: u32) -> u32
        ensures { result ≡ downgraded state }
    {
        fetch_add(state, Self::DOWNGRADE)
    }

    // state | WRITE_LOCKED
    pub fn with_write_locked(state: u32) -> u32
        ensures { result ≡ with_write_locked state }
    {
        state | Self::WRITE_LOCKED
    }

    // state | READERS_WAITING
    pub fn with_readers_waiting(state: u32) -> u32
        ensures { result ≡ with_readers_waiting state }
    {
        state | Self::READERS_WAITING
    }

    // state - READERS_WAITING
    pub fn without_readers_waiting(state: u32) -> u32
        ensures { result ≡ without_readers_waiting state }
    {
        fetch_sub(state, Self::READERS_WAITING)
    }

    // state | WRITERS_WAITING
    pub fn with_writers_waiting(state: u32) -> u32
        ensures { result ≡ with_writers_waiting state }
    {
        state | Self::WRITERS_WAITING
    }
}
