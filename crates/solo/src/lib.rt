// A thread stepped alone, by plain steps under a budget, until its call ends, sleeps, panics or enters a
// closure. Soundness is tested once: every step keeps it (crates/keeps, `solo-is-acts`).
#![tactic(auto, unfolding(crate::specs::Run::solo_of, crate::specs::Solo::answer_of, crate::specs::Solo::name_of, crate::specs::Solo::stop_of, crate::specs::Solo::value_of))]

ghost use Rattle.std.specs.Prelude.{◌≡◌};
ghost use Rattle.calls.specs.Events.{goes_on};
ghost use Rattle.acts.specs.Numbers.{number_of};
ghost use Rattle.solo.specs.Run.{run_from, solo_of};
ghost use Rattle.solo.specs.Solo.{stop_of, answer_of, refused_answer, name_of, value_of};

use acts::Refusal;
use calls::Event;
use queue::THREADS;
use world::World;

// Where a run stopped.
#[derive(Clone, Copy)]
pub enum Stop {
    Done { value: u8 },
    Slept,
    Panic { number: u8 },
    Closure,
    // the last step allowed brought no stop
    Budget,
    // no step was run
    Refused { number: u8 },
}

// The stop, the count of steps to it, the sleepers woken in all, and the world.
#[derive(Clone, Copy)]
pub struct Ran {
    pub stop: Stop,
    pub count: u16,
    pub woken: u32,
    pub world: World,
}

// Whether a run goes on behind a step's event.
fn goes_on(event: Event) -> bool
    ensures { result ≡ goes_on event }
{
    matches!(event, Event::Moved { .. })
}

// The stop that an event is.
fn stop_of(event: Event) -> Stop
    ensures { result ≡ stop_of event }
{
    match event {
        Event::Moved { .. } => Stop::Budget,
        Event::Done { value, .. } => Stop::Done { value },
        Event::Slept => Stop::Slept,
        Event::Panic { number, .. } => Stop::Panic { number },
        Event::Closure => Stop::Closure,
        Event::Refused { number } => Stop::Refused { number },
        Event::Set | Event::Begun | Event::Woken | Event::Closed => Stop::Refused {
            number: Refusal::Unsound.number(),
        },
    }
}

// The steps, with no question asked before them.
fn run(w: World, t: u8, budget: u16) -> Ran
    ensures { result ≡ answer_of (run_from budget 0 0 w t) }
{
    let mut v = w;
    let mut woken: u32 = 0;
    for count in 0..budget {
        let a = step::step(v, t, false);
        woken += u32::from(calls::woken(a.event));
        v = a.world;
        if !goes_on(a.event) {
            return Ran {
                stop: stop_of(a.event),
                count: count + 1,
                woken,
                world: v,
            };
        }
    }
    Ran {
        stop: Stop::Budget,
        count: budget,
        woken,
        world: v,
    }
}

fn refuse(refusal: Refusal, w: World) -> Ran
    ensures { result ≡ refused_answer (number_of refusal) w }
{
    let number = refusal.number();
    Ran {
        stop: Stop::Refused { number },
        count: 0,
        woken: 0,
        world: w,
    }
}

// Runs thread t alone, for at most `budget` steps. The refusals are those of a step, in its order.
pub fn solo(w: World, t: u8, budget: u16) -> Ran
    ensures { result ≡ answer_of (solo_of w t budget) }
{
    if !sound::sound(w) {
        return refuse(Refusal::Unsound, w);
    }
    if THREADS <= usize::from(t) {
        return refuse(Refusal::NoSuchThread, w);
    }
    match acts::step_refusal(w.thread(t), 0) {
        Ok(()) => run(w, t, budget),
        Err(refusal) => refuse(refusal, w),
    }
}

// How many bytes a stop's name has, the spaces behind it too.
pub const NAME: usize = 7;

// The name of a stop, in ASCII, with spaces behind it.
pub fn name(stop: Stop) -> [u8; NAME]
    ensures { result ≡ name_of stop }
{
    match stop {
        Stop::Done { .. } => *b"done   ",
        Stop::Slept => *b"slept  ",
        Stop::Panic { .. } => *b"panic  ",
        Stop::Closure => *b"closure",
        Stop::Budget => *b"budget ",
        Stop::Refused { .. } => *b"refused",
    }
}

// The value told of a stop: 1 or 0 for done, the number of a panic or a refusal, else 0.
pub fn value(stop: Stop) -> u8
    ensures { result ≡ value_of stop }
{
    match stop {
        Stop::Done { value } => value,
        Stop::Panic { number } | Stop::Refused { number } => number,
        Stop::Slept | Stop::Closure | Stop::Budget => 0,
    }
}
