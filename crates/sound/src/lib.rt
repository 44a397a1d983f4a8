// Which worlds are sound, as a test for any world value, and each clause of it as a test of its own: no
// clause leans on another, so that a world which is refused can be asked what is wrong with it.
#![tactic(auto, unfolding(crate::specs::Ranges::all_from, crate::specs::Ranges::count_from, crate::specs::Ranges::sum_from, crate::specs::Sound::asleep_count, crate::specs::Sound::count_agrees, crate::specs::Sound::every_sleeper_stands, crate::specs::Sound::is_asleep, crate::specs::Sound::lock_agrees, crate::specs::Sound::lock_is_set, crate::specs::Sound::locks_agree, crate::specs::Sound::locks_are_set, crate::specs::Sound::mutex_agrees, crate::specs::Sound::mutex_holders, crate::specs::Sound::mutex_in_range, crate::specs::Sound::mutex_rests, crate::specs::Sound::mutexes_agree, crate::specs::Sound::mutexes_in_range, crate::specs::Sound::mutexes_rest, crate::specs::Sound::name_exists, crate::specs::Sound::names_exist, crate::specs::Sound::need_held, crate::specs::Sound::needs_held, crate::specs::Sound::nobody_sleeps, crate::specs::Sound::once_in_range, crate::specs::Sound::once_is_set, crate::specs::Sound::onces_are_set, crate::specs::Sound::onces_in_range, crate::specs::Sound::parker_rests, crate::specs::Sound::parkers_rest, crate::specs::Sound::reads_held, crate::specs::Sound::set_alone, crate::specs::Sound::sleeper_stands, crate::specs::Sound::sleepers_stand, crate::specs::Sound::sound_world, crate::specs::Sound::stands_as, crate::specs::Sound::started_or_set, crate::specs::Sound::state_is_set, crate::specs::Sound::thread_rests, crate::specs::Sound::threads_rest, crate::specs::Sound::value_passed, crate::specs::Sound::values_passed, crate::specs::Sound::word_for, crate::specs::Sound::words_in_range, crate::specs::Sound::writers))]

ghost use Rattle.std.specs.Prelude.{◌≡◌};
ghost use Rattle.sound.specs.Sound.{names_exist, values_passed, stands_as, every_sleeper_stands, asleep_count, sleepers_stand, mutexes_in_range, onces_in_range, words_in_range, mutex_holders, mutex_agrees, mutexes_agree, writers, reads_held, count_agrees, lock_agrees, locks_agree, needs_held, threads_rest, mutex_rests, mutexes_rest, state_is_set, lock_is_set, locks_are_set, once_is_set, onces_are_set, parkers_rest, set_alone, started_or_set, sound_world};

use calls::{MUTEXES, ONCES, RWLOCKS, Thread};
use queue::THREADS;
use words::{Kind, MutexWord, OnceWord, ParkerWord, RwLockWord};
use world::World;

// The most that a Once word can be.
const ONCE_MOST: u32 = OnceWord::INCOMPLETE + OnceWord::QUEUED;

// Every position names only objects that exist.
pub fn names_exist(w: World) -> bool
    ensures { result ≡ names_exist w }
{
    (0..THREADS as u8).all(|t| calls::exists(w.thread(t).at))
}

// The values at every position have passed the tests that lead there.
pub fn values_passed(w: World) -> bool
    ensures { result ≡ values_passed w }
{
    (0..THREADS as u8).all(|t| calls::passed(w.thread(t).at))
}

fn asleep_count(w: &World) -> usize
    ensures { result ≡ asleep_count w.now.threads }
{
    (0..THREADS as u8).filter(|t| w.thread(*t).asleep).count()
}

// Whether a thread that stands in the row so often is right there.
fn stands_as(th: Thread, times: usize) -> bool
    ensures { result ≡ stands_as th times }
{
    if th.asleep {
        calls::waits(th.at) && times == 1
    } else {
        times == 0
    }
}

fn every_sleeper_stands(w: &World) -> bool
    ensures { result ≡ every_sleeper_stands w.now.threads w.now.sleepers }
{
    (0..THREADS as u8).all(|t| stands_as(w.thread(t), w.sleepers.occurrences(t)))
}

// Each sleeper stands at a futex_wait and once in the row, and nobody else stands there.
pub fn sleepers_stand(w: World) -> bool
    ensures { result ≡ sleepers_stand w }
{
    w.sleepers.is_tidy() && every_sleeper_stands(&w) && w.sleepers.count == asleep_count(&w)
}

fn mutexes_in_range(w: &World) -> bool
    ensures { result ≡ mutexes_in_range w.now.words }
{
    (0..MUTEXES as u8).all(|mutex| w.word_for(Kind::Mutex, mutex) <= MutexWord::CONTENDED)
}

fn onces_in_range(w: &World) -> bool
    ensures { result ≡ onces_in_range w.now.words }
{
    (0..ONCES as u8).all(|once| w.word_for(Kind::Once, once) <= ONCE_MOST)
}

// Mutex words are 0 to 2, Once words 0 to 7.
pub fn words_in_range(w: World) -> bool
    ensures { result ≡ words_in_range w }
{
    mutexes_in_range(&w) && onces_in_range(&w)
}

fn mutex_holders(w: &World, mutex: u8) -> usize
    ensures { result ≡ mutex_holders w.now.locked mutex }
{
    (0..THREADS as u8)
        .filter(|t| w.holds_mutex(mutex, *t))
        .count()
}

fn mutex_agrees(w: &World, mutex: u8) -> bool
    ensures { result ≡ mutex_agrees w.now.words w.now.locked mutex }
{
    let holders = mutex_holders(w, mutex);
    if w.word_for(Kind::Mutex, mutex) == MutexWord::UNLOCKED {
        holders == 0
    } else {
        holders == 1
    }
}

// Each mutex word is 0 where nobody holds the mutex, and not 0 where one thread does.
pub fn mutexes_agree(w: World) -> bool
    ensures { result ≡ mutexes_agree w }
{
    (0..MUTEXES as u8).all(|mutex| mutex_agrees(&w, mutex))
}

fn writers(w: &World, lock: u8) -> usize
    ensures { result ≡ writers w.now.written lock }
{
    (0..THREADS as u8)
        .filter(|t| w.holds_write(lock, *t))
        .count()
}

// The reads of a lock, forgotten and held: a count of 32 bits for each thread and one more, so that their
// sum fits whatever they are.
fn reads_held(w: &World, lock: u8) -> u64
    ensures { result ≡ reads_held w.now.forgotten w.now.reads lock }
{
    let mut held = u64::from(w.forgotten_reads(lock));
    for t in 0..THREADS as u8 {
        held += u64::from(w.reads(lock, t));
    }
    held
}

// Whether the low 30 bits of a state agree with how many threads write and how many reads are held.
fn count_agrees(low: u32, writing: usize, held: u64) -> bool
    ensures { result ≡ count_agrees low writing held }
{
    if writing == 0 {
        u64::from(low) == held && held <= u64::from(RwLockWord::MAX_READERS)
    } else {
        writing == 1 && low == RwLockWord::MASK && held == 0
    }
}

fn lock_agrees(w: &World, lock: u8) -> bool
    ensures { result ≡ lock_agrees w.now.words w.now.written w.now.reads w.now.forgotten lock }
{
    let low = RwLockWord::count(w.word_for(Kind::RwLock, lock));
    count_agrees(low, writers(w, lock), reads_held(w, lock))
}

// Each RwLock's state agrees with the holds kept.
pub fn locks_agree(w: World) -> bool
    ensures { result ≡ locks_agree w }
{
    (0..RWLOCKS as u8).all(|lock| lock_agrees(&w, lock))
}

// A thread still before the operation that frees or downgrades has that hold.
pub fn needs_held(w: World) -> bool
    ensures { result ≡ needs_held w }
{
    (0..THREADS as u8).all(|t| w.has_hold(t, calls::needs(w.thread(t).at)))
}

fn threads_rest(w: &World) -> bool
    ensures { result ≡ threads_rest w.now.threads }
{
    (0..THREADS as u8).all(|t| !w.thread(t).asleep && calls::is_idle(w.thread(t).at))
}

fn mutex_rests(w: &World, mutex: u8) -> bool
    ensures { result ≡ mutex_rests w.now.words w.now.locked mutex }
{
    w.word_for(Kind::Mutex, mutex) == MutexWord::UNLOCKED && mutex_holders(w, mutex) == 0
}

fn mutexes_rest(w: &World) -> bool
    ensures { result ≡ mutexes_rest w.now.words w.now.locked }
{
    (0..MUTEXES as u8).all(|mutex| mutex_rests(w, mutex))
}

// Whether nobody holds a lock, and its state is its forgotten reads.
fn state_is_set(state: u32, forgotten: u32, writing: usize, held: u64) -> bool
    ensures { result ≡ state_is_set state forgotten writing held }
{
    writing == 0
        && held == u64::from(forgotten)
        && state == forgotten
        && forgotten <= RwLockWord::MAX_READERS
}

fn lock_is_set(w: &World, lock: u8) -> bool
    ensures { result ≡ lock_is_set w.now.words w.now.written w.now.reads w.now.forgotten lock }
{
    let state = w.word_for(Kind::RwLock, lock);
    state_is_set(
        state,
        w.forgotten_reads(lock),
        writers(w, lock),
        reads_held(w, lock),
    )
}

fn locks_are_set(w: &World) -> bool
    ensures { result ≡ locks_are_set w.now.words w.now.written w.now.reads w.now.forgotten }
{
    (0..RWLOCKS as u8).all(|lock| lock_is_set(w, lock))
}

fn once_is_set(w: &World, once: u8) -> bool
    ensures { result ≡ once_is_set w.now.words once }
{
    let word = w.word_for(Kind::Once, once);
    word == OnceWord::INCOMPLETE || word == OnceWord::COMPLETE
}

fn onces_are_set(w: &World) -> bool
    ensures { result ≡ onces_are_set w.now.words }
{
    (0..ONCES as u8).all(|once| once_is_set(w, once))
}

fn parkers_rest(w: &World) -> bool
    ensures { result ≡ parkers_rest w.now.words }
{
    (0..THREADS as u8).all(|t| w.word_for(Kind::Parker, t) == ParkerWord::EMPTY)
}

// Whether set acts alone make the world from a fresh one.
fn set_alone(w: &World) -> bool
    ensures { result ≡ set_alone w.now }
{
    threads_rest(w)
        && w.sleepers.count == 0
        && mutexes_rest(w)
        && locks_are_set(w)
        && onces_are_set(w)
        && parkers_rest(w)
}

// An act other than set was accepted, or set acts alone make the world from a fresh one.
pub fn started_or_set(w: World) -> bool
    ensures { result ≡ started_or_set w }
{
    w.started || set_alone(&w)
}

// Whether a world is sound.
pub fn sound(w: World) -> bool
    ensures { result ≡ sound_world w }
{
    names_exist(w)
        && values_passed(w)
        && sleepers_stand(w)
        && words_in_range(w)
        && mutexes_agree(w)
        && locks_agree(w)
        && needs_held(w)
        && started_or_set(w)
}
