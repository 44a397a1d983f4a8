// The worlds that records are fed to: most of them acts lead to, the others are forged.
use crate::forge::{self, Forge};
use crate::holds::Holding;
use crate::lines::Answer;
use crate::places::Place;
use crate::records::Record;
use calls::Call;
use once::Ending;
use queue::THREADS;
use std::fmt;
use words::Kind;
use world::World;

// The world after an act.
pub fn after(world: World, record: Record) -> World {
    Answer::new(world, record).world
}

// A fresh world after a begin and so many steps.
pub fn begun(call: Call, thread: u8, object: u8, steps: u32) -> World {
    let mut w = after(world::fresh(), Record::begin(call, thread, object));
    for _ in 0..steps {
        w = after(w, Record::step(thread));
    }
    w
}

#[derive(Clone, Copy)]
pub enum Scene {
    Fresh,
    InLock,
    AsleepInPark,
    InClosure,
    BeforeClosure,
    With(Holding),
    BeforeParkWaits,
    ClosureClosed,
    BeginRefused,
    MutexWordOf3,
    IdleAndAsleep,
    AsleepInClosure,
    InLockUnnoted,
    AsleepUnnoted,
    AwakeInRow,
}

impl Scene {
    pub fn world(self) -> World {
        match self {
            Scene::Fresh => world::fresh(),
            Scene::InLock => begun(Call::Lock, 0, 0, 0),
            Scene::AsleepInPark => begun(Call::Park, 0, 0, 2),
            Scene::InClosure => begun(Call::OnceCall, 0, 0, 2),
            Scene::BeforeClosure => begun(Call::OnceCall, 0, 0, 1),
            Scene::With(holding) => holding.reached(),
            Scene::BeforeParkWaits => begun(Call::Park, 0, 0, 1),
            Scene::ClosureClosed => after(
                begun(Call::OnceCall, 0, 0, 2),
                Record::close(Ending::Returned, 0),
            ),
            Scene::BeginRefused => after(world::fresh(), Record::begin(Call::Lock, 32, 0)),
            Scene::MutexWordOf3 => forge::fresh(true).word(Kind::Mutex, 0, 3),
            Scene::IdleAndAsleep => forge::fresh(true).sleeps(Place::Idle.with(0)),
            Scene::AsleepInClosure => forge::fresh(true).sleeps(Place::InClosureOf.with(0)),
            Scene::InLockUnnoted => forge::fresh(false).stands(0, calls::start(Call::Lock, 0, 0)),
            Scene::AsleepUnnoted => forge::fresh(false).sleeps(Place::ParkWaitsOn.with(0)),
            Scene::AwakeInRow => begun(Call::Park, 0, 0, 1).row([0; THREADS], 1),
        }
    }
}

impl fmt::Display for Scene {
    fn fmt<W: fmt::Write>(&self, f: &mut fmt::Formatter<W>) -> fmt::Result {
        match self {
            Scene::Fresh => write!(f, "fresh"),
            Scene::InLock => write!(f, "in lock"),
            Scene::AsleepInPark => write!(f, "asleep in park"),
            Scene::InClosure => write!(f, "in a closure"),
            Scene::BeforeClosure => write!(f, "before a closure"),
            Scene::With(holding) => write!(f, "{holding}"),
            Scene::BeforeParkWaits => write!(f, "before park's wait"),
            Scene::ClosureClosed => write!(f, "a closure closed"),
            Scene::BeginRefused => write!(f, "a begin refused"),
            Scene::MutexWordOf3 => write!(f, "a mutex word of 3"),
            Scene::IdleAndAsleep => write!(f, "idle and asleep"),
            Scene::AsleepInClosure => write!(f, "asleep in a closure"),
            Scene::InLockUnnoted => write!(f, "in lock without a note of it"),
            Scene::AsleepUnnoted => write!(f, "asleep without a note of it"),
            Scene::AwakeInRow => write!(f, "awake in the row"),
        }
    }
}
