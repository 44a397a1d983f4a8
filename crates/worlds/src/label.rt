// What stands before a value: a name behind a space, the number of an object, and the sign between.
use calls::{CONDVARS, MUTEXES, ONCES, RWLOCKS};
use std::fmt;

#[derive(Clone, Copy)]
pub struct Label {
    pub name: &'static str,
    pub object: usize,
}

impl fmt::Display for Label {
    fn fmt<W: fmt::Write>(&self, f: &mut fmt::Formatter<W>) -> fmt::Result {
        write!(f, "{}{}=", self.name, self.object)
    }
}

// The kinds of words in the order of the row of all words, with how many there are. Behind them come the Parkers.
const KINDS: [(&str, usize); 5] = [
    (" mutex.", MUTEXES),
    (" rwlock.", RWLOCKS),
    (" writer_notify.", RWLOCKS),
    (" condvar.", CONDVARS),
    (" once.", ONCES),
];

impl Label {
    // Of word k.
    pub fn of_word(k: usize) -> Label {
        let mut object = k;
        for (name, count) in KINDS {
            if object < count {
                return Label { name, object };
            }
            object -= count;
        }
        Label {
            name: " parker.",
            object,
        }
    }
}

// A list of values behind one label, with commas between them; an empty one has no label.
#[derive(Clone, Copy)]
pub struct List {
    label: Label,
    is_begun: bool,
}

impl List {
    pub fn new(label: Label) -> List {
        List {
            label,
            is_begun: false,
        }
    }

    // Writes what stands before the next value.
    pub fn write_next<W: fmt::Write>(&mut self, f: &mut fmt::Formatter<W>) -> fmt::Result {
        if self.is_begun {
            return f.write_str(",");
        }
        self.is_begun = true;
        write!(f, "{}", self.label)
    }
}
