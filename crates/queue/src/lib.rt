// One row of the threads that sleep, by number, in the order in which they fell asleep: the wait
// queues of futex(2), all in one. Who sleeps on which word is for the caller to say, by a test of a
// thread. A row that is handed in may be any value of its type: every method has an answer for it.
#![tactic(auto, unfolding(crate::specs::Row::is_tidy, crate::specs::Row::passing, crate::specs::Row::push_of, crate::specs::Row::pushed, crate::specs::Row::row_of, crate::specs::Row::take_out_of, crate::specs::Row::without_of))]

ghost use Rattle.std.specs.Prelude.{ℕ, Bool, ◌≡◌, position};
ghost use Rattle.words.specs.Found.{found};
ghost use Rattle.queue.specs.Row.{THREADS, sleepers, empty_row, push_of, answer_of, take_out_of, thread_of, is_wanted, place_of, without_of, occ, is_tidy};

// How many threads there are: so many places has a row, since no thread sleeps twice.
pub const THREADS: usize = 32;

#[derive(Clone, Copy)]
pub struct Row {
    // the longest asleep first, and 0 in the places that are not used
    pub places: [u8; THREADS],
    // how many sleep
    pub count: usize,
}

// A row that has no place left.
#[derive(Clone, Copy)]
pub struct Full;

// A test of a thread, by its number.
pub trait Test: Drop {
    ghost passes: { Self → ℕ → Bool };

    fn passes(&self, thread: u8) -> bool
        ensures { result ≡ passes self.now thread };
}

// A flag for each thread. A number that has no flag fails.
impl Test for [bool; THREADS] {
    ghost passes = { is_wanted };

    fn passes(&self, thread: u8) -> bool {
        self.get(thread as usize).copied().unwrap_or(false)
    }
}

// The place in a list of threads of the first that passes a test.
fn first<T: Test>(threads: &[u8], wanted: &T) -> Option<usize>
    ensures { result ≡ position (T.passes wanted.now) threads.now }
{
    threads.iter().position(|thread| wanted.passes(*thread))
}

impl Row {
    // Nobody sleeps.
    pub fn new() -> Row
        ensures { result ≡ empty_row }
    {
        Row {
            places: [0; THREADS],
            count: 0,
        }
    }

    // Who sleeps, the longest asleep first. A count past the last place means all.
    fn sleepers(&self) -> &[u8]
        ensures { result.now ≡ sleepers self.now }
    {
        &self.places[..self.count.min(THREADS)]
    }

    // A thread falls asleep: its place is behind all the others. A full row refuses.
    pub fn push(&mut self, thread: u8) -> Result<(), Full>
        ensures row { self.new ≡ (push_of self.old thread).row }
        ensures value { result ≡ answer_of (push_of self.old thread) }
    {
        if self.count >= THREADS {
            return Err(Full);
        }
        self.places[self.count] = thread;
        self.count += 1;
        Ok(())
    }

    // A sleeper leaves the row, from any place: the first of one word's queue may stand behind others. Those
    // behind it move up, and 0 comes in at the end. A place where nobody sleeps refuses.
    pub fn take_out(&mut self, place: usize) -> Option<u8>
        ensures row { self.new ≡ (take_out_of self.old place).row }
        ensures value { result ≡ thread_of (take_out_of self.old place) }
    {
        let thread = *self.sleepers().get(place)?;
        self.places.copy_within(place + 1.., place);
        self.places[THREADS - 1] = 0;
        self.count -= 1;
        Some(thread)
    }

    // The place of the longest asleep of those wanted.
    #[tactic(auto, using(crate::proofs::Laws::place_is))]
    pub fn place_of<T: Test>(&self, wanted: T) -> Option<usize>
        ensures { result ≡ found THREADS (place_of (T.passes wanted) self.now) }
    {
        first(self.sleepers(), &wanted)
    }

    // The row without those wanted: the others keep their order.
    pub fn without<T: Test>(self, wanted: T) -> Row
        ensures { result ≡ without_of (T.passes wanted) self }
    {
        let mut rest = Row::new();
        for thread in self.sleepers() {
            if !wanted.passes(*thread) {
                rest.places[rest.count] = *thread;
                rest.count += 1;
            }
        }
        rest
    }

    // How often a thread stands in the row.
    pub fn occurrences(&self, thread: u8) -> usize
        ensures { result ≡ occ thread (sleepers self.now) }
    {
        self.sleepers()
            .iter()
            .filter(|other| **other == thread)
            .count()
    }

    // Whether the row is the one that its sleepers have: two such rows with the same sleepers are equal.
    pub fn is_tidy(&self) -> bool
        ensures { result ≡ is_tidy self.now }
    {
        self.count <= THREADS && self.places[self.count..].iter().all(|thread| *thread == 0)
    }
}
