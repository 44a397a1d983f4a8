// Who holds each mutex, who writes and who reads each RwLock and how often, and the reads that nobody will free.
use crate::label::{Label, List};
use std::fmt;
use world::World;

const OBJECTS: u8 = calls::MUTEXES as u8;

const THREADS: u8 = queue::THREADS as u8;

#[derive(Clone, Copy)]
pub struct Holds<'a>(pub &'a World);

impl fmt::Display for Holds<'_> {
    fn fmt<W: fmt::Write>(&self, f: &mut fmt::Formatter<W>) -> fmt::Result {
        let w = self.0;
        write_holders(f, " mutex.", |object, t| w.holds_mutex(object, t))?;
        write_holders(f, " write.", |object, t| w.holds_write(object, t))?;
        write_readers(f, w)?;
        for (object, count) in w.forgotten.iter().enumerate() {
            if *count != 0 {
                let name = " forgotten.";
                write!(f, "{}{count}", Label { name, object })?;
            }
        }
        Ok(())
    }
}

// Each thread that holds an object.
fn write_holders<W: fmt::Write, F: Fn(u8, u8) -> bool>(
    f: &mut fmt::Formatter<W>,
    name: &'static str,
    holds: F,
) -> fmt::Result
    requires { F.IsAlwaysCallable holds }
{
    for object in 0..OBJECTS {
        for t in 0..THREADS {
            if holds(object, t) {
                let object = usize::from(object);
                write!(f, "{}{t}", Label { name, object })?;
            }
        }
    }
    Ok(())
}

// Each thread that reads a lock, with how often.
fn write_readers<W: fmt::Write>(f: &mut fmt::Formatter<W>, w: &World) -> fmt::Result {
    for lock in 0..OBJECTS {
        let name = " read.";
        let object = usize::from(lock);
        let mut list = List::new(Label { name, object });
        for t in 0..THREADS {
            let count = w.reads(lock, t);
            if count != 0 {
                list.write_next(f)?;
                write!(f, "{t}*{count}")?;
            }
        }
    }
    Ok(())
}
