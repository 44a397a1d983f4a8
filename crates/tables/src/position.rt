// What is asked of the modules.
use crate::names::Named;
use condvar::CondvarAt;
use mutex::MutexAt;
use once::OnceAt;
use rwlock::RwLockAt;
use thread_parking::ParkerAt;
use words::{Kind, Step};

// A position in a call of one of the five modules. What it is and what it does is asked of that module.
pub trait Position: Named + Copy + Drop {
    fn decide(self, fails: bool, found: u32, anyone: bool) -> Step<Self>;

    // The kind of word that the next operation is about.
    fn operand(self) -> Kind;

    // Whether that is a weak exchange.
    fn weak_next(self) -> bool;

    // Whether it is a futex_wait, and where the call stands after that one.
    fn waits(self) -> bool;

    fn after_wait(self) -> Self;
}

impl Position for MutexAt {
    fn decide(self, fails: bool, found: u32, anyone: bool) -> Step<MutexAt> {
        mutex::decide(self, fails, found, anyone)
    }

    fn operand(self) -> Kind {
        mutex::operand(self)
    }

    fn weak_next(self) -> bool {
        mutex::weak_next(self)
    }

    fn waits(self) -> bool {
        mutex::waits(self)
    }

    fn after_wait(self) -> MutexAt {
        mutex::after_wait(self)
    }
}

impl Position for ParkerAt {
    fn decide(self, fails: bool, found: u32, anyone: bool) -> Step<ParkerAt> {
        thread_parking::decide(self, fails, found, anyone)
    }

    fn operand(self) -> Kind {
        thread_parking::operand(self)
    }

    fn weak_next(self) -> bool {
        thread_parking::weak_next(self)
    }

    fn waits(self) -> bool {
        thread_parking::waits(self)
    }

    fn after_wait(self) -> ParkerAt {
        thread_parking::after_wait(self)
    }
}

impl Position for CondvarAt {
    fn decide(self, fails: bool, found: u32, anyone: bool) -> Step<CondvarAt> {
        condvar::decide(self, fails, found, anyone)
    }

    fn operand(self) -> Kind {
        condvar::operand(self)
    }

    fn weak_next(self) -> bool {
        condvar::weak_next(self)
    }

    fn waits(self) -> bool {
        condvar::waits(self)
    }

    fn after_wait(self) -> CondvarAt {
        condvar::after_wait(self)
    }
}

impl Position for OnceAt {
    fn decide(self, fails: bool, found: u32, anyone: bool) -> Step<OnceAt> {
        once::decide(self, fails, found, anyone)
    }

    fn operand(self) -> Kind {
        once::operand(self)
    }

    fn weak_next(self) -> bool {
        once::weak_next(self)
    }

    fn waits(self) -> bool {
        once::waits(self)
    }

    fn after_wait(self) -> OnceAt {
        once::after_wait(self)
    }
}

impl Position for RwLockAt {
    fn decide(self, fails: bool, found: u32, anyone: bool) -> Step<RwLockAt> {
        rwlock::decide(self, fails, found, anyone)
    }

    fn operand(self) -> Kind {
        rwlock::operand(self)
    }

    fn weak_next(self) -> bool {
        rwlock::weak_next(self)
    }

    fn waits(self) -> bool {
        rwlock::waits(self)
    }

    fn after_wait(self) -> RwLockAt {
        rwlock::after_wait(self)
    }
}
