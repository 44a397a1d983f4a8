// A line for each case: what it says of its world, whether that is sound, and what `act` answers.
use crate::records::Record;
use crate::shown::Told;
use calls::Event;
use std::{fmt, io};
use world::World;

// What `act` answers to a record, and whether the world was sound.
#[derive(Clone, Copy)]
pub struct Answer {
    sound: bool,
    event: Event,
    pub world: World,
}

impl Answer {
    pub fn new(world: World, record: Record) -> Answer {
        let acted = acts::act(world, record.fields());
        Answer {
            sound: sound::sound(world),
            event: acted.event,
            world: acted.world,
        }
    }
}

impl fmt::Display for Answer {
    fn fmt<W: fmt::Write>(&self, f: &mut fmt::Formatter<W>) -> fmt::Result {
        let soundness = if self.sound { "sound" } else { "unsound" };
        write!(f, "{soundness}, {}", Told(self.event))
    }
}

// The line of a case: its world, and what is done to it.
pub fn print<C: fmt::Display>(
    rt: &impl Print,
    section: &str,
    case: &C,
    world: World,
    record: Record,
) -> io::Result<()> {
    println!(rt; "{section}: {case}: {}", Answer::new(world, record))
}
