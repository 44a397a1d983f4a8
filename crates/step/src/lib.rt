// What each act stores in a world. None of these functions asks whether the act is allowed or the world is
// sound: each has an answer for every world value.
#![tactic(auto, unfolding(crate::specs::Acts::begin_of, crate::specs::Acts::close_of, crate::specs::Acts::recorded, crate::specs::Step::apply_plan, crate::specs::Step::own_plan, crate::specs::Step::wakes_of))]

ghost use Rattle.std.specs.Prelude.{◌≡◌, length, set};
ghost use Rattle.std.specs.Option.{unwrap_or};
ghost use Rattle.words.specs.Found.{found};
ghost use Rattle.queue.specs.Row.{THREADS, is_wanted, queue_of, without_of, place_of, take_out_of, thread_of};
ghost use Rattle.world.specs.World.{on_word};
ghost use Rattle.step.specs.Step.{roused, rouse_all, woken_one, woken_all, wakes_of, locked_after, written_after, reads_after, slept_row, own_plan, apply_plan, step_of};
ghost use Rattle.step.specs.Acts.{recorded, begin_of, only_of, wake_of, closed_at, close_of};

use calls::{At, Event, Plan, Thread, WORDS};
use once::Ending;
use queue::{Row, THREADS, Test};
use words::{Hold, Wake};
use world::World;

// What an act answers, and the world after it.
#[derive(Clone, Copy)]
pub struct Acted {
    pub event: Event,
    pub world: World,
}

// An entry is put at a place of a table, which stays as it is where it has no such place.
fn put<T: Copy + Drop>(table: &mut [T], place: usize, entry: T)
    ensures { table.new ≡ set table.old place entry }
{
    if place < table.len() {
        table[place] = entry;
    }
}

// The words with another word of number k; as they were where there is no such word.
pub fn put_word(words: [u32; WORDS], k: usize, word: u32) -> [u32; WORDS]
    ensures { result ≡ set words k word }
{
    let mut after = words;
    put(&mut after, k, word);
    after
}

// A thread's record after a wake: it stands after its futex_wait.
fn rouse(th: Thread) -> Thread
    ensures { result ≡ roused th }
{
    Thread {
        at: calls::after_wait(th.at),
        asleep: false,
    }
}

// Whoever sleeps on word k is roused.
fn rouse_all(threads: &mut [Thread; THREADS], k: usize)
    ensures { threads.new ≡ rouse_all k 0 threads.old }
{
    for (t, th) in threads.iter_mut().enumerate() {
        if world::sleeps_on(k, t as u8, *th) {
            *th = rouse(*th);
        }
    }
}

// Whether a thread of the world sleeps on word k.
#[derive(Clone, Copy)]
struct OnWord<'a> {
    world: &'a World,
    k: usize,
}

impl Test for OnWord<'_> {
    ghost passes = { λ s. on_word s.world.now.threads s.k };

    fn passes(&self, thread: u8) -> bool {
        world::sleeps_on(self.k, thread, self.world.thread(thread))
    }
}

// The place in the row of the longest asleep on word k.
fn first_on(w: &World, k: usize) -> Option<usize>
    ensures { result ≡ found THREADS (place_of (on_word w.now.threads k) w.now.sleepers) }
{
    w.sleepers.place_of(OnWord { world: w, k })
}

// The sleeper at a place leaves the row, if there is one.
fn leave(row: &mut Row, place: Option<usize>) -> Option<u8>
    ensures row { row.new ≡ (take_out_of row.old (unwrap_or place THREADS)).row }
    ensures value { result ≡ thread_of (take_out_of row.old (unwrap_or place THREADS)) }
{
    row.take_out(place?)
}

// The sleeper at a place of the row wakes, if there is one. How many woke.
fn wake_one(w: &mut World, place: Option<usize>) -> u8
    ensures world { w.new ≡ (woken_one w.old (take_out_of w.old.sleepers (unwrap_or place THREADS))).world }
    ensures count { result ≡ (woken_one w.old (take_out_of w.old.sleepers (unwrap_or place THREADS))).count }
{
    let Some(t) = leave(&mut w.sleepers, place) else {
        return 0;
    };
    let roused = rouse(w.thread(t));
    put(&mut w.threads, t as usize, roused);
    1
}

// Those wanted leave the row. How many left.
fn leave_all<T: Test>(row: &mut Row, wanted: T) -> u8
    ensures row { row.new ≡ without_of (T.passes wanted) row.old }
    ensures count { result ≡ length (queue_of (T.passes wanted) row.old) }
{
    let before = row.count.min(THREADS);
    *row = row.without(wanted);
    before.saturating_sub(row.count) as u8
}

// Everyone on word k wakes. How many woke.
fn wake_all(w: &mut World, k: usize) -> u8
    ensures world { w.new ≡ (woken_all w.old k).world }
    ensures count { result ≡ (woken_all w.old k).count }
{
    let before = *w;
    let woken = leave_all(&mut w.sleepers, OnWord { world: &before, k });
    rouse_all(&mut w.threads, k);
    woken
}

// The wakes of a step on word k, with the place in the row of the longest asleep on it. How many woke.
fn wakes(w: &mut World, k: usize, place: Option<usize>, wake: Wake) -> u8
    ensures world { w.new ≡ (wakes_of w.old k (unwrap_or place THREADS) wake).world }
    ensures count { result ≡ (wakes_of w.old k (unwrap_or place THREADS) wake).count }
{
    match wake {
        Wake::None => 0,
        Wake::One => wake_one(w, place),
        Wake::All => wake_all(w, k),
    }
}

// A mutex hold after a step; so a write hold and a count of reads.
pub fn locked_after(hold: Hold, b: bool) -> bool
    ensures { result ≡ locked_after hold b }
{
    match hold {
        Hold::TakeMutex => true,
        Hold::FreeMutex => false,
        _ => b,
    }
}

pub fn written_after(hold: Hold, b: bool) -> bool
    ensures { result ≡ written_after hold b }
{
    match hold {
        Hold::TakeWrite => true,
        Hold::FreeWrite | Hold::Downgrade => false,
        _ => b,
    }
}

pub fn reads_after(hold: Hold, n: u32) -> u32
    ensures { result ≡ reads_after hold n }
{
    match hold {
        Hold::TakeRead | Hold::Downgrade => words::fetch_add(n, 1),
        Hold::FreeRead => words::fetch_sub(n, 1),
        _ => n,
    }
}

// The row with t behind the others, where it fell asleep.
pub fn slept_row(sleeps: bool, row: Row, t: u8) -> Row
    ensures { result ≡ slept_row sleeps row t }
{
    let mut after = row;
    if sleeps {
        let _ = after.push(t);
    }
    after
}

// The stepping thread's own part of its plan over word k: the word, its hold, its record, its place behind the
// sleepers.
pub fn store(w: &mut World, t: u8, k: usize, p: Plan)
    ensures { w.new ≡ own_plan w.old t k p }
{
    put(&mut w.words, k, p.word);
    let mutex = world::mutex_slot(t, p.object);
    w.locked[mutex] = locked_after(p.hold, w.locked[mutex]);
    let lock = world::lock_slot(t, p.object);
    w.written[lock] = written_after(p.hold, w.written[lock]);
    w.reads[lock] = reads_after(p.hold, w.reads[lock]);
    put(&mut w.threads, t as usize, p.next);
    w.sleepers = slept_row(p.next.asleep, w.sleepers, t);
    w.started = true;
}

// The plan p of thread t carried out over word k: the wakes, then the thread's own part.
fn apply(w: World, t: u8, k: usize, place: Option<usize>, p: Plan) -> Acted
    ensures { result ≡ apply_plan w t k (unwrap_or place THREADS) p }
{
    let mut world = w;
    let woken = wakes(&mut world, k, place, p.wake);
    store(&mut world, t, k, p);
    Acted {
        event: calls::tell(p.event, woken),
        world,
    }
}

// A step of thread t; `fails`: where a weak exchange is next, it fails. A thread that has no operation
// (idle, in a closure, on an object that does not exist) stays, and is refused as a world is whose parts
// disagree.
pub fn step(w: World, t: u8, fails: bool) -> Acted
    ensures { result ≡ step_of w t fails }
{
    let at = w.thread(t).at;
    let Some(k) = calls::operand(t, at) else {
        return Acted {
            event: Event::Refused { number: 19 },
            world: w,
        };
    };
    let place = first_on(&w, k);
    let plan = calls::decide(at, fails, w.word(k), place.is_some());
    apply(w, t, k, place, plan)
}

// The world with another record of thread t and another row, in motion.
fn record(w: World, t: u8, th: Thread, row: Row, event: Event) -> Acted
    ensures { result ≡ recorded w t th row event }
{
    let mut world = w;
    put(&mut world.threads, t as usize, th);
    world.sleepers = row;
    world.started = true;
    Acted { event, world }
}

// Thread t begins a call, at the position where it starts.
pub fn begin(w: World, t: u8, at: At) -> Acted
    ensures { result ≡ begin_of w t at }
{
    record(w, t, Thread { at, asleep: false }, w.sleepers, Event::Begun)
}

// Whether a number is that of one thread; a number that is no thread's is nobody's.
#[derive(Clone, Copy)]
struct Only {
    thread: u8,
}

impl Test for Only {
    ghost passes = { λ s. is_wanted (only_of s.thread) };

    fn passes(&self, thread: u8) -> bool {
        thread == self.thread && (self.thread as usize) < THREADS
    }
}

// The place in the row of thread t; a number that is no thread's has none.
fn place_of_thread(row: &Row, t: u8) -> Option<usize>
    ensures { result ≡ found THREADS (place_of (is_wanted (only_of t)) row.now) }
{
    row.place_of(Only { thread: t })
}

// A spurious wake of thread t, which leaves the row from wherever it stands there.
pub fn wake(w: World, t: u8) -> Acted
    ensures { result ≡ wake_of w t }
{
    let mut row = w.sleepers;
    let place = place_of_thread(&row, t);
    leave(&mut row, place);
    record(w, t, rouse(w.thread(t)), row, Event::Woken)
}

fn closed_at(ending: Ending, at: At) -> At
    ensures { result ≡ closed_at ending at }
{
    match at {
        At::Once { once, at } => At::Once {
            once,
            at: once::close(ending, at),
        },
        other => other,
    }
}

// The closure of thread t ends so.
pub fn close(w: World, t: u8, ending: Ending) -> Acted
    ensures { result ≡ close_of w t ending }
{
    let at = closed_at(ending, w.thread(t).at);
    record(
        w,
        t,
        Thread { at, asleep: false },
        w.sleepers,
        Event::Closed,
    )
}
