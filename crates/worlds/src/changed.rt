// The words that differ from a fresh world's.
use crate::label::Label;
use calls::WORDS;
use std::{fmt, str};

#[derive(Clone, Copy)]
pub struct Changed<'a>(pub &'a [u32; WORDS]);

impl fmt::Display for Changed<'_> {
    fn fmt<W: fmt::Write>(&self, f: &mut fmt::Formatter<W>) -> fmt::Result {
        let words = self.0;
        let fresh = world::fresh().words;
        for (k, (word, before)) in words.iter().zip(fresh.iter()).enumerate() {
            if word != before {
                write!(f, "{}{}", Label::of_word(k), Digits(*word))?;
            }
        }
        Ok(())
    }
}

// A word in eight hexadecimal digits.
#[derive(Clone, Copy)]
struct Digits(u32);

impl fmt::Display for Digits {
    fn fmt<W: fmt::Write>(&self, f: &mut fmt::Formatter<W>) -> fmt::Result {
        const OF: &[u8; 16] = b"0123456789ABCDEF";
        let word = self.0;
        let digits = [28, 24, 20, 16, 12, 8, 4, 0].map(|by| OF[(word.rotate_right(by)
            % 16) as usize]);
        f.write_str(str::from_utf8(&digits).unwrap_or_default())
    }
}
