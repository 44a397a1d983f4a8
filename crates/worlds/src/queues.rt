// The words on which threads sleep, each with its sleepers, the longest asleep first.
use crate::label::{Label, List};
use calls::WORDS;
use queue::THREADS;
use std::fmt;
use world::World;

#[derive(Clone, Copy)]
pub struct Queues<'a>(pub &'a World);

impl fmt::Display for Queues<'_> {
    fn fmt<W: fmt::Write>(&self, f: &mut fmt::Formatter<W>) -> fmt::Result {
        let row = self.0.sleepers;
        let sleepers = row.places.get(..row.count).unwrap_or(&row.places);
        let mut on = [None; THREADS];
        for (slot, t) in on.iter_mut().zip(sleepers.iter()) {
            *slot = slept_on(self.0, *t);
        }
        for k in 0..WORDS {
            let mut list = List::new(Label::of_word(k));
            for (t, word) in sleepers.iter().zip(on.iter()) {
                if *word == Some(k) {
                    list.write_next(f)?;
                    write!(f, "{t}")?;
                }
            }
        }
        Ok(())
    }
}

// The word that a thread sleeps on.
fn slept_on(w: &World, t: u8) -> Option<usize> {
    let thread = w.thread(t);
    if thread.asleep {
        return calls::operand(t, thread.at);
    }
    None
}
