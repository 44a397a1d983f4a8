// The tally of a replay: five counts, lent and added to in place as events come. A count at its largest
// value stays there.
#![tactic(auto, unfolding(crate::specs::Tally::add_event, crate::specs::Tally::bump_of, crate::specs::Tally::granted_of, crate::specs::Tally::grants_of, crate::specs::Tally::up_by))]

ghost use Rattle.std.specs.Prelude.{◌≡◌};
ghost use Rattle.tally.specs.Tally.{bump_of, no_tally, add_event, grants_of};

use calls::{At, Call, Event};

#[derive(Clone, Copy)]
pub struct Tally {
    // done-1 events of the calls that take a lock
    pub grants: u64,
    pub sleeps: u64,
    // the sum of the woken column, spurious wakes too
    pub wakes: u64,
    pub panics: u64,
    pub refused: u64,
}

impl Tally {
    // Nothing counted yet.
    pub fn nothing() -> Tally
        ensures { result ≡ no_tally }
    {
        Tally {
            grants: 0,
            sleeps: 0,
            wakes: 0,
            panics: 0,
            refused: 0,
        }
    }

    // What one event adds to each count; `grant`: whether the call takes a lock.
    fn of(e: Event, grant: bool) -> Tally
        ensures { result ≡ bump_of e grant }
    {
        let none = Tally::nothing();
        match e {
            Event::Moved { woken } => Tally {
                wakes: u64::from(woken),
                ..none
            },
            Event::Done { value, woken } => Tally {
                grants: u64::from(grant && value == 1),
                wakes: u64::from(woken),
                ..none
            },
            Event::Slept => Tally { sleeps: 1, ..none },
            Event::Panic { woken, .. } => Tally {
                wakes: u64::from(woken),
                panics: 1,
                ..none
            },
            Event::Woken => Tally { wakes: 1, ..none },
            Event::Refused { .. } => Tally { refused: 1, ..none },
            Event::Set | Event::Begun | Event::Closure | Event::Closed => none,
        }
    }

    // Adds an event.
    pub fn add(&mut self, e: Event, grant: bool)
        ensures { self.new ≡ add_event self.old e grant }
    {
        let more = Tally::of(e, grant);
        self.grants = self.grants.saturating_add(more.grants);
        self.sleeps = self.sleeps.saturating_add(more.sleeps);
        self.wakes = self.wakes.saturating_add(more.wakes);
        self.panics = self.panics.saturating_add(more.panics);
        self.refused = self.refused.saturating_add(more.refused);
    }

    // The tally with an event added, for a caller that has it by value.
    pub fn noted(self, e: Event, grant: bool) -> Tally
        ensures { result ≡ add_event self e grant }
    {
        let mut t = self;
        t.add(e, grant);
        t
    }
}

// Whether a done-1 event of a thread at this position is a grant: in lock, try_lock, read, try_read, write
// and try_write. A condvar's wait is none.
pub fn grants(at: At) -> bool
    ensures { result ≡ grants_of at }
{
    matches!(
        calls::call_of(at),
        Some(Call::Lock | Call::TryLock | Call::Read | Call::TryRead | Call::Write | Call::TryWrite)
    )
}
