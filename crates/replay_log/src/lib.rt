// The run of a log: records of ten bytes, one line for each, and a tally. A log can be run in parts, each
// from the state that the part before it reached.
#![tactic(auto, unfolding(step::specs::Acts::begin_of, step::specs::Acts::recorded, step::specs::Step::own_plan, crate::specs::InPlace::Acts, crate::specs::InPlace::Tells, crate::specs::InPlace::Turns, crate::specs::InPlace::calm_of, crate::specs::InPlace::quick_begin, crate::specs::InPlace::stored_by, crate::specs::InPlace::told_by, crate::specs::Run::answer_of, crate::specs::Run::ending_of, crate::specs::Run::finish_of, crate::specs::Run::mark_of))]

ghost use Rattle.std.specs.Prelude.{◌≡◌, ◌-◌, ◌≤◌, ◌<◌, min, length, take, drop, IfSome};
ghost use Rattle.queue.specs.Row.{THREADS};
ghost use Rattle.tally.specs.Tally.{grants_of};
ghost use Rattle.sound.specs.Sound.{sound_world};
ghost use Rattle.lines.specs.Lines.{lay_of};
ghost use Rattle.world.specs.World.{thread_at};
ghost use Rattle.replay_log.specs.Numbers.{number_of, number_told};
ghost use Rattle.replay_log.specs.Run.{IsPrefixLen, fields_of, mark_of, ending_of, answer_of, run_of, Answers, carried_of, finish_of, finished_line, finished_of};
ghost use Rattle.replay_log.specs.InPlace.{calm_of, quick_begin, told_by, stored_by, Does, Tells, Acts, Turns};

use acts::{Action, Fields};
use calls::{At, Event, Plan, Thread};
use queue::THREADS;
use step::Acted;
use tally::Tally;
use world::World;

// A record is so many bytes.
pub const RECORD: usize = 10;

// What a log is refused for, with the number that is told of it.
#[derive(Clone, Copy, Debug, PartialEq, Eq)]
pub enum Refusal {
    BadMark = 20,
    // fewer bytes are left than a record has
    ShortRecord,
    // the numbers are used up
    NoNumber,
}

impl Refusal {
    pub fn number(self) -> u8
        ensures { result ≡ number_of self }
    {
        self as u8
    }
}

// Why a run stopped.
#[derive(Clone, Copy)]
pub enum Stop {
    // fewer bytes are left than a record has
    Short,
    // the next line has no room in the buffer
    Room,
    // a refusal that ends the run was written: 20 or 22
    Ended { number: u8 },
}

// What goes along with a run: the world, the tally, and the number of the next record.
#[derive(Clone, Copy)]
pub struct State {
    pub world: World,
    pub tally: Tally,
    pub number: u32,
}

// What a run reached, the bytes of the log that it used and of the buffer that it wrote, and why it stopped.
#[derive(Clone, Copy)]
pub struct Ran {
    pub state: State,
    pub used: usize,
    pub count: usize,
    pub stop: Stop,
}

// The tally at a log's end, and the bytes of the buffer that its last refusal took.
#[derive(Clone, Copy)]
pub struct Finished {
    pub tally: Tally,
    pub count: usize,
}

// So many records have numbers; any byte behind them is refused.
const LAST: u32 = 0xFFFF_FFFF;

// The fields of the record that the bytes begin with.
fn fields(l: &[u8]) -> Fields
    requires { 10 ≤ length l.now }
    ensures { result ≡ fields_of l.now }
{
    Fields {
        act: l[2],
        choice: l[3],
        thread: l[4],
        object: l[5],
        value: u32::from_le_bytes([l[6], l[7], l[8], l[9]]),
    }
}

// Whether the bytes begin with a record's mark.
fn is_marked(l: &[u8]) -> bool
    requires { 10 ≤ length l.now }
    ensures { result ≡ mark_of l.now }
{
    l[0] == 0xB1 && l[1] == 0x6B
}

// The refusal that ends a run before a record: the numbers are used up, or its mark is bad.
fn ending(number: u32, l: &[u8]) -> Option<Refusal>
    requires { 10 ≤ length l.now }
    ensures { number_told result ≡ ending_of number l.now }
{
    if number == LAST {
        return Some(Refusal::NoNumber);
    }
    if is_marked(l) {
        return None;
    }
    Some(Refusal::BadMark)
}

// An act's answer, soundness having been tested before the first record.
fn answer(sound: bool, w: World, a: Fields) -> Acted
    ensures { result ≡ answer_of sound w a }
{
    if sound {
        return acts::acted(w, a);
    }
    Acted {
        event: Event::Refused {
            number: acts::Refusal::Unsound.number(),
        },
        world: w,
    }
}

// Whether a record is a step of a thread with this record that is accepted and wakes nobody: it is run in
// place, if the thread's word is there.
fn is_quick(sound: bool, a: Fields, th: Thread) -> bool
    ensures { result ≡ calm_of sound a th }
{
    sound
        && a.act == Action::Step as u8
        && (a.thread as usize) < THREADS
        && acts::fields_refusal(a).is_ok()
        && acts::step_refusal(th, a.choice).is_ok()
        && !calls::may_wake(th.at)
}

// Whether a record is a begin of a thread with this record that is accepted, where the hold that the call
// needs is there: it is run in place too.
fn is_begin(sound: bool, a: Fields, th: Thread, held: bool) -> bool
    ensures { result ≡ quick_begin sound a th held }
{
    sound
        && a.act == Action::Begin as u8
        && (a.thread as usize) < THREADS
        && acts::fields_refusal(a).is_ok()
        && calls::is_idle(th.at)
        && held
}

// An act that is stored in place, worked out before its line is laid.
#[derive(Clone, Copy)]
enum InPlace {
    // a step over word k that wakes nobody
    Step { k: usize, plan: Plan },
    Begin { at: At },
}

impl InPlace {
    // A record's act, if it is one of these; `th`: the record of its thread.
    fn of(sound: bool, w: &World, a: Fields, th: Thread) -> Option<InPlace>
        requires { th ≡ thread_at w.now a.thread }
        ensures { IfSome result (λ act. Does sound w.now a act) }
    {
        if is_quick(sound, a, th) {
            let k = calls::operand(a.thread, th.at)?;
            let plan = calls::decide(th.at, acts::fails(a.choice), w.word(k), false);
            return Some(InPlace::Step { k, plan });
        }
        let at = acts::start(a);
        if is_begin(sound, a, th, w.has_hold(a.thread, calls::needs(at))) {
            return Some(InPlace::Begin { at });
        }
        None
    }

    fn event(&self) -> Event
        ensures { result ≡ told_by self.now }
    {
        match self {
            InPlace::Step { plan, .. } => calls::tell(plan.event, 0),
            InPlace::Begin { .. } => Event::Begun,
        }
    }

    // Stores it in a world; thread t is the one that acts.
    fn store(&self, w: &mut World, t: u8)
        requires { t < THREADS }
        ensures { w.new ≡ stored_by w.old t self.now }
    {
        match self {
            InPlace::Step { k, plan } => step::store(w, t, *k, *plan),
            InPlace::Begin { at } => {
                w.threads[t as usize] = Thread {
                    at: *at,
                    asleep: false,
                };
                w.started = true;
            }
        }
    }
}

impl Ran {
    // Lays an event's line and adds it to the tally; without room it does neither.
    fn tell(&mut self, event: Event, grant: bool, out: &mut [u8]) -> Result<(), Stop>
        ensures { Tells event grant self.old self.new out.old out.new result }
    {
        let end = lines::put_line(out, self.count, self.state.number, event);
        if end == self.count {
            return Err(Stop::Room);
        }
        self.count = end;
        self.state.tally.add(event, grant);
        Ok(())
    }

    // Tells what a record's act answers, and then does it; `grant`: whether its thread's call takes a lock.
    fn act(&mut self, sound: bool, a: Fields, grant: bool, out: &mut [u8]) -> Result<(), Stop>
        requires { grant ≡ grants_of (thread_at self.old.state.world a.thread).at }
        ensures { Acts a (answer_of sound self.old.state.world a) self.old self.new out.old out.new result }
    {
        let acted = answer(sound, self.state.world, a);
        self.tell(acted.event, grant, out)?;
        self.state.world = acted.world;
        Ok(())
    }

    // The same, stored in place where that is known to be the answer.
    fn quick_act(&mut self, sound: bool, a: Fields, out: &mut [u8]) -> Result<(), Stop>
        ensures { Acts a (answer_of sound self.old.state.world a) self.old self.new out.old out.new result }
    {
        let th = self.state.world.thread(a.thread);
        let grant = tally::grants(th.at);
        match InPlace::of(sound, &self.state.world, a, th) {
            Some(act) => {
                self.tell(act.event(), grant, out)?;
                act.store(&mut self.state.world, a.thread);
                Ok(())
            }
            None => self.act(sound, a, grant, out),
        }
    }

    // Runs the record that the bytes begin with.
    fn turn(&mut self, sound: bool, l: &[u8], out: &mut [u8]) -> Result<(), Stop>
        requires { 10 ≤ length l.now }
        ensures { Turns sound l.now self.old self.new out.old out.new result }
    {
        if let Some(refusal) = ending(self.state.number, l) {
            let number = refusal.number();
            self.tell(Event::Refused { number }, false, out)?;
            return Err(Stop::Ended { number });
        }
        self.quick_act(sound, fields(l), out)?;
        self.state.number += 1;
        Ok(())
    }
}

// Runs the records that a part of a log begins with, from the state given, and lays
// a line for each into the buffer. A world whose parts disagree has every record refused.
pub fn run(state: State, log: &[u8], out: &mut [u8]) -> Ran
    ensures { Answers (run_of (sound_world state.world) (length out.old) log.now state) (length log.now) result out.old out.new }
{
    let sound = sound::sound(state.world);
    let mut ran = Ran {
        state,
        used: 0,
        count: 0,
        stop: Stop::Short,
    };
    for record in log.chunks_exact(RECORD) {
        if let Err(stop) = ran.turn(sound, record, out) {
            ran.stop = stop;
            return ran;
        }
        ran.used += RECORD;
    }
    ran
}

// Runs the part of a log that starts at a place; a start past the end is an empty part.
pub fn run_from(state: State, log: &[u8], from: usize, out: &mut [u8]) -> Ran
    ensures { Answers (run_of (sound_world state.world) (length out.old) (drop from log.now) state) (length log.now - from) result out.old out.new }
{
    if from <= log.len() {
        return run(state, &log[from..], out);
    }
    Ran {
        state,
        used: 0,
        count: 0,
        stop: Stop::Short,
    }
}

// The refusal behind the last run, with so many bytes left: any byte once the numbers are used up, else fewer
// than a record has.
pub fn finish(number: u32, left: usize) -> Option<Refusal>
    ensures { number_told result ≡ finish_of number left }
{
    if left == 0 {
        return None;
    }
    if number == LAST {
        return Some(Refusal::NoNumber);
    }
    if left < RECORD {
        return Some(Refusal::ShortRecord);
    }
    None
}

// Lays the line of that refusal into the buffer, if there is one, and adds it to the tally.
pub fn put_finish(t: Tally, number: u32, left: usize, out: &mut [u8]) -> Finished
    ensures value { result ≡ finished_of (length out.old) t number (finish_of number left) }
    ensures out_after { out.new ≡ lay_of out.old 0 (finished_line number (finish_of number left)) }
{
    match finish(number, left) {
        None => Finished { tally: t, count: 0 },
        Some(refusal) => {
            let e = Event::Refused {
                number: refusal.number(),
            };
            Finished {
                count: lines::put_line(out, 0, number, e),
                tally: t.noted(e, false),
            }
        }
    }
}

// A place in a buffer, or its end where that comes before.
pub fn within(end: usize, buf: &[u8]) -> usize
    ensures prefix_len { IsPrefixLen result buf.now }
    ensures value { result ≡ min end (length buf.now) }
{
    end.min(buf.len())
}

// The bytes of a buffer from one place up to another, moved to its start. Places that are not in it leave
// it as it was.
pub fn carry(buf: &mut [u8], from: usize, end: usize)
    ensures { buf.new ≡ carried_of buf.old from end }
{
    if end <= buf.len() {
        buf.copy_within(from.min(end)..end, 0);
    }
}

// Runs the records that the first `end` bytes of a buffer begin with, and moves the bytes that are left of
// them to its start.
pub fn feed(state: State, buf: &mut [u8], end: usize, out: &mut [u8]) -> Ran
    ensures answers { Answers (run_of (sound_world state.world) (length out.old) (take end buf.old) state) (length (take end buf.old)) result out.old out.new }
    ensures buf_after { buf.new ≡ carried_of buf.old result.used (length (take end buf.old)) }
    ensures used_le_end { result.used ≤ end }
{
    let stop = within(end, buf);
    let ran = run(state, &buf[..stop], out);
    carry(buf, ran.used, stop);
    ran
}
