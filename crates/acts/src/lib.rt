// The five acts on a world, with their refusals: any act on any world value gets an answer. A refused act
// has its number, by document 01's order, and changes nothing.
#![tactic(auto, unfolding(crate::specs::Acts::accepted_of, crate::specs::Acts::act_of, crate::specs::Acts::acted_of, crate::specs::Acts::ending_of, crate::specs::Acts::set_of, crate::specs::Acts::set_world, crate::specs::Refusals::begin_refusal, crate::specs::Refusals::begin_unnamed_zero, crate::specs::Refusals::both_zero, crate::specs::Refusals::call_exists, crate::specs::Refusals::choices_of, crate::specs::Refusals::close_refusal, crate::specs::Refusals::fields_refusal, crate::specs::Refusals::object_exists, crate::specs::Refusals::object_if_named, crate::specs::Refusals::set_exists, crate::specs::Refusals::set_refusal, crate::specs::Refusals::set_unnamed_zero, crate::specs::Refusals::step_refusal, crate::specs::Refusals::thread_exists, crate::specs::Refusals::unnamed_zero, crate::specs::Refusals::value_if_named, crate::specs::Refusals::wait_exists, crate::specs::Refusals::wake_refusal, crate::specs::Refusals::world_refusal))]

ghost use Rattle.std.specs.Prelude.{◌≡◌, eqb};
ghost use Rattle.calls.specs.Objects.{word_of};
ghost use Rattle.step.specs.Step.{refused};
ghost use Rattle.acts.specs.Numbers.{act_number, change_number, NamesAct, NamesChange, number_of, told};
ghost use Rattle.acts.specs.Refusals.{choices_of, set_unnamed_zero, begin_unnamed_zero, unnamed_zero, set_exists, call_exists, object_exists, thread_exists, fields_refusal, start_of, set_refusal, begin_refusal, step_refusal, wake_refusal, close_refusal, world_refusal};
ghost use Rattle.acts.specs.Acts.{with_word, with_forgotten, set_world, set_of, ending_of, accepted_of, acted_of, act_of};

use calls::{At, CONDVARS, Call, Event, MUTEXES, ONCES, RWLOCKS, Thread};
use once::Ending;
use queue::THREADS;
use step::Acted;
use words::{Kind, OnceWord, RwLockWord};
use world::World;

// The acts, in the order of their numbers.
#[derive(Clone, Copy, Debug, PartialEq, Eq)]
pub enum Action {
    Set,
    Begin,
    Step,
    Wake,
    Close,
}

// What a set changes, in the order of its choices.
#[derive(Clone, Copy, Debug, PartialEq, Eq)]
pub enum Change {
    // the forgotten reads of an RwLock, with its state
    ForgottenReads,
    WriterNotify,
    Condvar,
    // a Once becomes COMPLETE
    CompleteOnce,
}

// A number that names no act, or no choice of one.
#[derive(Clone, Copy, Debug, PartialEq, Eq)]
pub struct Unnamed;

impl TryFrom<u8> for Action {
    type Error = Unnamed;

    ghost try_from_gives = { NamesAct };

    fn try_from(number: u8) -> Result<Self, Unnamed> {
        match number {
            0 => Ok(Action::Set),
            1 => Ok(Action::Begin),
            2 => Ok(Action::Step),
            3 => Ok(Action::Wake),
            4 => Ok(Action::Close),
            _ => Err(Unnamed),
        }
    }
}

impl TryFrom<u8> for Change {
    type Error = Unnamed;

    ghost try_from_gives = { NamesChange };

    fn try_from(number: u8) -> Result<Self, Unnamed> {
        match number {
            0 => Ok(Change::ForgottenReads),
            1 => Ok(Change::WriterNotify),
            2 => Ok(Change::Condvar),
            3 => Ok(Change::CompleteOnce),
            _ => Err(Unnamed),
        }
    }
}

// Why an act is refused, with the number that is told of it.
#[derive(Clone, Copy, Debug, PartialEq, Eq)]
pub enum Refusal {
    // no such act or choice, or a field that the act does not name is not 0
    Unknown = 1,
    NoSuchThread,
    NoSuchObject,
    // the thread that would begin a call is in one
    InsideCall,
    Idle,
    Asleep,
    Awake,
    // the exchange that would fail is none, or not a weak one
    NoWeakExchange,
    // the thread does not have the hold that the call takes away
    NoHold,
    InsideClosure,
    OutsideClosure,
    // a set, after another act was accepted
    Started,
    // more forgotten reads than there may be readers
    OutOfRange,
    // the parts of the world disagree
    Unsound = 19,
}

impl Refusal {
    pub fn number(self) -> u8
        ensures { result ≡ number_of self }
    {
        self as u8
    }
}

// How many objects of each kind a record may name: all there are.
pub const NAMED_MUTEXES: usize = MUTEXES;

pub const NAMED_LOCKS: usize = RWLOCKS;

pub const NAMED_CONDVARS: usize = CONDVARS;

pub const NAMED_ONCES: usize = ONCES;

// The fields of a record.
#[derive(Clone, Copy)]
pub struct Fields {
    pub act: u8,
    pub choice: u8,
    pub thread: u8,
    pub object: u8,
    pub value: u32,
}

// How many choices an act has.
fn choices(act: Action) -> u8
    ensures { result ≡ choices_of (act_number act) }
{
    match act {
        Action::Set => 4,
        Action::Begin => 20,
        Action::Step => 2,
        Action::Wake => 1,
        Action::Close => 3,
    }
}

fn set_unnamed_zero(a: Fields) -> bool
    ensures { result ≡ set_unnamed_zero a }
{
    let complete = matches!(Change::try_from(a.choice), Ok(Change::CompleteOnce));
    a.thread == 0 && (!complete || a.value == 0)
}

fn begin_unnamed_zero(a: Fields) -> bool
    ensures { result ≡ begin_unnamed_zero a }
{
    match Call::try_from(a.choice) {
        Ok(Call::Park) => a.object == 0 && a.value == 0,
        Ok(Call::CondvarWait) => true,
        _ => a.value == 0,
    }
}

// Whether the fields that an act does not name are 0.
fn unnamed_zero(act: Action, a: Fields) -> bool
    requires { a.act ≡ act_number act }
    ensures { result ≡ unnamed_zero a }
{
    match act {
        Action::Set => set_unnamed_zero(a),
        Action::Begin => begin_unnamed_zero(a),
        _ => a.object == 0 && a.value == 0,
    }
}

fn set_exists(a: Fields) -> bool
    ensures { result ≡ set_exists a.choice a.object }
{
    let object = usize::from(a.object);
    match Change::try_from(a.choice) {
        Ok(Change::ForgottenReads | Change::WriterNotify) => object < NAMED_LOCKS,
        Ok(Change::Condvar) => object < NAMED_CONDVARS,
        _ => object < NAMED_ONCES,
    }
}

fn call_exists(a: Fields) -> bool
    ensures { result ≡ call_exists a.choice a.object a.value }
{
    let object = usize::from(a.object);
    match Call::try_from(a.choice) {
        Ok(Call::Lock | Call::TryLock | Call::Unlock) => object < NAMED_MUTEXES,
        Ok(
            Call::Read
            | Call::TryRead
            | Call::ReadUnlock
            | Call::Write
            | Call::TryWrite
            | Call::WriteUnlock
            | Call::Downgrade,
        ) => object < NAMED_LOCKS,
        Ok(Call::CondvarWait) => object < NAMED_CONDVARS && (a.value as usize) < NAMED_MUTEXES,
        Ok(Call::NotifyOne | Call::NotifyAll) => object < NAMED_CONDVARS,
        Ok(
            Call::OnceCall
            | Call::OnceCallForce
            | Call::OnceWait
            | Call::OnceWaitForce
            | Call::IsCompleted,
        ) => object < NAMED_ONCES,
        Ok(Call::Park) => true,
        _ => object < THREADS,
    }
}

fn object_exists(act: Action, a: Fields) -> bool
    requires { a.act ≡ act_number act }
    ensures { result ≡ object_exists a }
{
    match act {
        Action::Set => set_exists(a),
        Action::Begin => call_exists(a),
        _ => true,
    }
}

fn thread_exists(act: Action, a: Fields) -> bool
    requires { a.act ≡ act_number act }
    ensures { result ≡ thread_exists a }
{
    act == Action::Set || usize::from(a.thread) < THREADS
}

// The refusals that need only the record: act, choice, thread, unnamed fields, object.
pub fn fields_refusal(a: Fields) -> Result<(), Refusal>
    ensures { told result ≡ fields_refusal a }
{
    let Ok(act) = Action::try_from(a.act) else {
        return Err(Refusal::Unknown);
    };
    if choices(act) <= a.choice {
        return Err(Refusal::Unknown);
    }
    if !thread_exists(act, a) {
        return Err(Refusal::NoSuchThread);
    }
    if !unnamed_zero(act, a) {
        return Err(Refusal::Unknown);
    }
    if !object_exists(act, a) {
        return Err(Refusal::NoSuchObject);
    }
    Ok(())
}

// Where a begin would start.
pub fn start(a: Fields) -> At
    ensures { result ≡ start_of a }
{
    calls::entry(a.choice, a.object, (a.value % 256) as u8)
}

fn set_refusal(w: &World, a: Fields) -> Result<(), Refusal>
    ensures { told result ≡ set_refusal w.now a.choice a.value }
{
    if w.started {
        return Err(Refusal::Started);
    }
    match Change::try_from(a.choice) {
        Ok(Change::ForgottenReads) if RwLockWord::MAX_READERS < a.value => Err(Refusal::OutOfRange),
        _ => Ok(()),
    }
}

fn begin_refusal(w: &World, a: Fields) -> Result<(), Refusal>
    ensures { told result ≡ begin_refusal w.now a }
{
    if !calls::is_idle(w.thread(a.thread).at) {
        return Err(Refusal::InsideCall);
    }
    if !w.has_hold(a.thread, calls::needs(start(a))) {
        return Err(Refusal::NoHold);
    }
    Ok(())
}

// Whether a step's choice is that its weak exchange fails.
pub fn fails(choice: u8) -> bool
    ensures { result ≡ eqb choice 1 }
{
    choice == 1
}

// Why a thread with this record may not be stepped.
pub fn step_refusal(th: Thread, choice: u8) -> Result<(), Refusal>
    ensures { told result ≡ step_refusal th choice }
{
    if calls::is_idle(th.at) {
        return Err(Refusal::Idle);
    }
    if th.asleep {
        return Err(Refusal::Asleep);
    }
    if calls::in_closure(th.at) {
        return Err(Refusal::InsideClosure);
    }
    if fails(choice) && !calls::weak_next(th.at) {
        return Err(Refusal::NoWeakExchange);
    }
    Ok(())
}

fn wake_refusal(th: Thread) -> Result<(), Refusal>
    ensures { told result ≡ wake_refusal th }
{
    if calls::is_idle(th.at) {
        return Err(Refusal::Idle);
    }
    if !th.asleep {
        return Err(Refusal::Awake);
    }
    Ok(())
}

fn close_refusal(th: Thread) -> Result<(), Refusal>
    ensures { told result ≡ close_refusal th }
{
    if calls::is_idle(th.at) {
        return Err(Refusal::Idle);
    }
    if th.asleep {
        return Err(Refusal::Asleep);
    }
    if !calls::in_closure(th.at) {
        return Err(Refusal::OutsideClosure);
    }
    Ok(())
}

// The refusals that read the world, of an act that has passed those of the fields. A number that is no act's is
// asked what a close is.
pub fn world_refusal(w: World, a: Fields) -> Result<(), Refusal>
    ensures { told result ≡ world_refusal w a }
{
    let th = w.thread(a.thread);
    match Action::try_from(a.act) {
        Ok(Action::Set) => set_refusal(&w, a),
        Ok(Action::Begin) => begin_refusal(&w, a),
        Ok(Action::Step) => step_refusal(th, a.choice),
        Ok(Action::Wake) => wake_refusal(th),
        _ => close_refusal(th),
    }
}

fn with_word(w: World, kind: Kind, object: u8, word: u32) -> World
    ensures { result ≡ with_word w (word_of kind object) word }
{
    let mut v = w;
    if let Some(k) = calls::word_number(kind, object) {
        v.words[k] = word;
    }
    v
}

fn with_forgotten(w: World, lock: u8, value: u32) -> World
    ensures { result ≡ with_forgotten w lock value }
{
    let mut v = with_word(w, Kind::RwLock, lock, value);
    let place = usize::from(lock);
    if place < RWLOCKS {
        v.forgotten[place] = value;
    }
    v
}

fn set_world(w: World, a: Fields) -> World
    ensures { result ≡ set_world w a.choice a.object a.value }
{
    match Change::try_from(a.choice) {
        Ok(Change::ForgottenReads) => with_forgotten(w, a.object, a.value),
        Ok(Change::WriterNotify) => with_word(w, Kind::WriterNotify, a.object, a.value),
        Ok(Change::Condvar) => with_word(w, Kind::Condvar, a.object, a.value),
        _ => with_word(w, Kind::Once, a.object, OnceWord::COMPLETE),
    }
}

fn set(w: World, a: Fields) -> Acted
    ensures { result ≡ set_of w a.choice a.object a.value }
{
    Acted {
        event: Event::Set,
        world: set_world(w, a),
    }
}

// How a closure ends, by the choice of a close.
pub fn ending(choice: u8) -> Ending
    ensures { result ≡ ending_of choice }
{
    match choice {
        0 => Ending::Returned,
        1 => Ending::Poisoned,
        _ => Ending::Panicked,
    }
}

// What an accepted act does. A number that is no act's does what a close does.
pub fn accepted(w: World, a: Fields) -> Acted
    ensures { result ≡ accepted_of w a }
{
    match Action::try_from(a.act) {
        Ok(Action::Set) => set(w, a),
        Ok(Action::Begin) => step::begin(w, a.thread, start(a)),
        Ok(Action::Step) => step::step(w, a.thread, fails(a.choice)),
        Ok(Action::Wake) => step::wake(w, a.thread),
        _ => step::close(w, a.thread, ending(a.choice)),
    }
}

fn refuse(refusal: Refusal, w: World) -> Acted
    ensures { result ≡ refused (number_of refusal) w }
{
    Acted {
        event: Event::Refused {
            number: refusal.number(),
        },
        world: w,
    }
}

// An act on a world that is known to be sound.
pub fn acted(w: World, a: Fields) -> Acted
    ensures { result ≡ acted_of w a }
{
    match fields_refusal(a).and_then(|()| world_refusal(w, a)) {
        Ok(()) => accepted(w, a),
        Err(refusal) => refuse(refusal, w),
    }
}

// An act on any world.
pub fn act(w: World, a: Fields) -> Acted
    ensures { result ≡ act_of w a }
{
    if !sound::sound(w) {
        return refuse(Refusal::Unsound, w);
    }
    acted(w, a)
}
