// What is promised of the machine, on one page: each function is the library's, with what the theorems say of
// it. None asks for anything: a caller's types are enough.
#![tactic(auto, unfolding(solo::specs::Solo::answer_of))]

ghost use Rattle.std.specs.Prelude.{◌≡◌, true, false, ℕ, ◌^◌, ◌<◌, length, get_or};
ghost use Rattle.calls.specs.declared.Event.TheVariants as E;
ghost use Rattle.sound.specs.Sound.{sound_world};
ghost use Rattle.acts.specs.Acts.{act_of};
ghost use Rattle.solo.specs.Run.{solo_of};
ghost use Rattle.solo.specs.declared.Stop.TheVariants as S;
ghost use Rattle.solo.specs.Solo.{answer_of};
ghost use Rattle.kept.specs.Shape.{Shaped};
ghost use Rattle.keeps.specs.Solo.{solo_by_acts};
ghost use Rattle.exact.specs.Exact.{ExactlyUnsound};
ghost use Rattle.replay_log.specs.Run.{Answers};
ghost use Rattle.parts.specs.Parts.{part_run, run_by_acts};
ghost use Rattle.parts.specs.Acts.{Refuses};
ghost use Rattle.claims.specs.Claims.{reached, replayed, acts_run, ReplayDemand};
ghost use Rattle.promises.specs.Promises.{one_part};

use acts::Fields;
use calls::WORDS;
use replay_log::State;
use step::Acted;
use tally::Tally;
use world::World;

// A world value has the sizes that the theorems ask for: its arrays and its words are the type's.
fn shaped(w: World)
    ensures { Shaped w }
{
    fit(w.words);
}

// Each of its words has 32 bits.
fn fit(words: [u32; WORDS])
    ensures { (k : ℕ) → get_or words k 0 < 2 ^ 32 }
{}

// The value of a record has 32 bits.
fn narrow(a: Fields)
    ensures { a.value < 2 ^ 32 }
{}

// An act: the answer is the definition's; the world after it is sound exactly if it was before; 19 is answered
// exactly if it was not; a refused act leaves it as it was.
pub fn act(w: World, a: Fields) -> Acted
    ensures answer { result ≡ act_of w a }
    ensures sound_stays { sound_world result.world ≡ sound_world w }
    ensures exactly_unsound { ExactlyUnsound w (result.event ≡ E.Refused 19) }
    ensures refused_stays { (n : ℕ) → result.event ≡ E.Refused n → result.world ≡ w }
{
    shaped(w);
    narrow(a);
    acts::act(w, a)
}

// A thread run alone: the answer is the definition's, and so that of the row of step acts; the world after it
// is sound exactly if it was before; 19 is answered exactly if it was not; a refused run leaves it as it was.
pub fn solo(w: World, t: u8, budget: u16) -> solo::Ran
    ensures answer { result ≡ answer_of (solo_of w t budget) }
    ensures by_acts { result ≡ answer_of (solo_by_acts w t budget) }
    ensures sound_stays { sound_world result.world ≡ sound_world w }
    ensures exactly_unsound { ExactlyUnsound w (result.stop ≡ S.Refused 19) }
    ensures refused_stays { (n : ℕ) → result.stop ≡ S.Refused n → result.world ≡ w }
{
    shaped(w);
    solo::solo(w, t, budget)
}

// A part of a log: answer and lines are the definition's, and so those of the row of acts; the world after it
// is sound exactly if it was before; one that was not refuses every record used with 19.
pub fn run(state: State, log: &[u8], out: &mut [u8]) -> replay_log::Ran
    ensures answer { Answers (part_run (length out.old) log.now state) (length log.now) result out.old out.new }
    ensures by_acts { Answers (run_by_acts (length out.old) log.now state) (length log.now) result out.old out.new }
    ensures sound_stays { sound_world result.state.world ≡ sound_world state.world }
    ensures unsound_refused { sound_world state.world ≡ false → Refuses state (part_run (length out.old) log.now state) }
{
    shaped(state.world);
    replay_log::run(state, log, out)
}

// A log from a fresh world: the world reached is that of the acts of the records used, it is sound, and demand
// 3 holds of these acts, with no premise on their number.
pub fn replay(t: Tally, log: &[u8], out: &mut [u8]) -> replay_log::Ran
    ensures answer { Answers (replayed t (one_part log.now (length out.old))).run (length log.now) result out.old out.new }
    ensures world_reached { result.state.world ≡ reached (acts_run t (one_part log.now (length out.old))) }
    ensures sound { sound_world result.state.world ≡ true }
    ensures demand { ReplayDemand t (one_part log.now (length out.old)) }
{
    let state = State {
        world: world::fresh(),
        tally: t,
        number: 0,
    };
    run(state, log, out)
}
