// How numbers, events and kinds of words are printed.
use calls::Event;
use std::fmt;
use words::Kind;

// A number: a small one in decimal digits, a larger one as a word of eight hexadecimal digits.
#[derive(Clone, Copy)]
pub struct Number(pub u32);

impl fmt::Display for Number {
    fn fmt<W: fmt::Write>(&self, f: &mut fmt::Formatter<W>) -> fmt::Result {
        if self.0 < 256 {
            write!(f, "{}", self.0)
        } else {
            write!(f, "{:#010X}", self.0)
        }
    }
}

// The event, its value and how many it woke.
#[derive(Clone, Copy)]
pub struct Told(pub Event);

impl fmt::Display for Told {
    fn fmt<W: fmt::Write>(&self, f: &mut fmt::Formatter<W>) -> fmt::Result {
        match self.0 {
            Event::Set => write!(f, "set 0 0"),
            Event::Begun => write!(f, "begun 0 0"),
            Event::Moved { woken } => write!(f, "moved 0 {woken}"),
            Event::Done { value, woken } => write!(f, "done {value} {woken}"),
            Event::Slept => write!(f, "slept 0 0"),
            Event::Panic { number, woken } => write!(f, "panic {number} {woken}"),
            Event::Closure => write!(f, "closure 0 0"),
            Event::Woken => write!(f, "woken 0 1"),
            Event::Closed => write!(f, "closed 0 0"),
            Event::Refused { number } => write!(f, "refused {number} 0"),
        }
    }
}

pub fn kind_name(kind: Kind) -> &'static str {
    match kind {
        Kind::Nothing => "nothing",
        Kind::Mutex => "mutex",
        Kind::RwLock => "RwLock",
        Kind::WriterNotify => "writer_notify",
        Kind::Condvar => "condvar",
        Kind::Once => "Once",
        Kind::Parker => "Parker",
    }
}
