// Records of acts.
use crate::shown::Number;
use acts::{Action, Change, Fields};
use calls::Call;
use once::Ending;
use std::fmt;

// Act, choice, thread, object and value, by their numbers.
#[derive(Clone, Copy)]
pub struct Record(pub u8, pub u8, pub u8, pub u8, pub u32);

impl Record {
    pub fn begin(call: Call, thread: u8, object: u8) -> Record {
        Record(Action::Begin as u8, call as u8, thread, object, 0)
    }

    pub fn step(thread: u8) -> Record {
        Record(Action::Step as u8, 0, thread, 0, 0)
    }

    // A step whose weak exchange is to fail.
    pub fn failing_step(thread: u8) -> Record {
        Record(Action::Step as u8, 1, thread, 0, 0)
    }

    pub fn wake(thread: u8) -> Record {
        Record(Action::Wake as u8, 0, thread, 0, 0)
    }

    pub fn close(ending: Ending, thread: u8) -> Record {
        Record(Action::Close as u8, ending as u8, thread, 0, 0)
    }

    pub fn set(what: Change, object: u8, value: u32) -> Record {
        Record(Action::Set as u8, what as u8, 0, object, value)
    }

    pub fn fields(self) -> Fields {
        let Record(act, choice, thread, object, value) = self;
        Fields {
            act,
            choice,
            thread,
            object,
            value,
        }
    }
}

impl fmt::Display for Record {
    fn fmt<W: fmt::Write>(&self, f: &mut fmt::Formatter<W>) -> fmt::Result {
        let Record(act, choice, thread, object, value) = *self;
        write!(
            f,
            "record {act} {choice} {thread} {object} {}",
            Number(value)
        )
    }
}
