// Each function is called twice with the same inputs, and its contract alone says that both answers are the
// same, and so are both buffers, where they were the same before. A contract that left anything open would fail
// here.
#![tactic(auto)]

ghost use Rattle.std.specs.Prelude.{◌≡◌};

use acts::Fields;
use calls::Event;
use replay_log::{Finished, State};
use step::Acted;
use tally::Tally;
use world::World;

// Two answers.
#[derive(Drop)]
struct Twice<A> {
    one: A,
    two: A,
}

fn act(w: World, a: Fields) -> Twice<Acted>
    ensures { result.one ≡ result.two }
{
    let one = acts::act(w, a);
    let two = acts::act(w, a);
    Twice { one, two }
}

fn solo(w: World, t: u8, budget: u16) -> Twice<solo::Ran>
    ensures { result.one ≡ result.two }
{
    let one = solo::solo(w, t, budget);
    let two = solo::solo(w, t, budget);
    Twice { one, two }
}

fn run(state: State, log: &[u8], first: &mut [u8], second: &mut [u8]) -> Twice<replay_log::Ran>
    ensures { first.old ≡ second.old → (result.one ≡ result.two) × (first.new ≡ second.new) }
{
    let one = replay_log::run(state, log, first);
    let two = replay_log::run(state, log, second);
    Twice { one, two }
}

fn put_line(
    first: &mut [u8],
    second: &mut [u8],
    at: usize,
    number: u32,
    event: Event,
) -> Twice<usize>
    ensures { first.old ≡ second.old → (result.one ≡ result.two) × (first.new ≡ second.new) }
{
    let one = lines::put_line(first, at, number, event);
    let two = lines::put_line(second, at, number, event);
    Twice { one, two }
}

fn put_tally(first: &mut [u8], second: &mut [u8], at: usize, tally: Tally) -> Twice<usize>
    ensures { first.old ≡ second.old → (result.one ≡ result.two) × (first.new ≡ second.new) }
{
    let one = lines::put_tally(first, at, tally);
    let two = lines::put_tally(second, at, tally);
    Twice { one, two }
}

fn put_finish(
    t: Tally,
    number: u32,
    left: usize,
    first: &mut [u8],
    second: &mut [u8],
) -> Twice<Finished>
    ensures { first.old ≡ second.old → (result.one ≡ result.two) × (first.new ≡ second.new) }
{
    let one = replay_log::put_finish(t, number, left, first);
    let two = replay_log::put_finish(t, number, left, second);
    Twice { one, two }
}
