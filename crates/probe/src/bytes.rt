// Values in the bytes of a case, the low byte of a number first: taken from the front of what is left of a case,
// and laid in two hexadecimal digits a byte.
use crate::case::WORLD;
use std::{array, fmt, str};

pub trait Stored: Sized {
    fn take(case: &mut Case<'_>) -> Self;

    fn lay(&self, digits: &mut Digits);
}

// What is left of a case.
#[derive(Clone, Copy)]
pub struct Case<'a> {
    rest: &'a [u8],
}

impl<'a> Case<'a> {
    pub fn new(bytes: &'a [u8]) -> Case<'a> {
        Case { rest: bytes }
    }

    pub fn take<T: Stored>(&mut self) -> T {
        T::take(self)
    }

    // The next bytes. Past the end of a case all are 0.
    pub fn bytes<const N: usize>(&mut self) -> [u8; N] {
        if let Some((first, rest)) = self.rest.split_first_chunk::<N>() {
            self.rest = rest;
            return *first;
        }
        let mut bytes = [0; N];
        for (byte, left) in bytes.iter_mut().zip(self.rest.iter()) {
            *byte = *left;
        }
        self.rest = &[];
        bytes
    }
}

// The digits of a world's bytes.
const DIGITS: usize = 2 * WORLD;

// Digits that are laid, one behind the other. Where no two more have room, no more are laid.
#[derive(Clone, Copy)]
pub struct Digits {
    text: [u8; DIGITS],
    count: usize,
}

impl Digits {
    pub fn lay<const N: usize>(&mut self, bytes: [u8; N]) {
        const OF: &[u8; 16] = b"0123456789abcdef";
        let mut at = self.count;
        for byte in bytes {
            if at < DIGITS - 1 {
                self.text[at] = OF[(byte / 16) as usize];
                self.text[at + 1] = OF[(byte % 16) as usize];
                at += 2;
            }
        }
        self.count = at;
    }
}

// A value's bytes in hexadecimal digits.
#[derive(Clone, Copy)]
pub struct Hex<'a, T>(pub &'a T);

impl<T: Stored> fmt::Display for Hex<'_, T> {
    fn fmt<W: fmt::Write>(&self, f: &mut fmt::Formatter<W>) -> fmt::Result {
        let mut digits = Digits {
            text: [0; DIGITS],
            count: 0,
        };
        self.0.lay(&mut digits);
        let laid = digits.text.get(..digits.count).unwrap_or_default();
        f.write_str(str::from_utf8(laid).unwrap_or_default())
    }
}

impl Stored for u32 {
    fn take(case: &mut Case<'_>) -> u32 {
        u32::from_le_bytes(case.bytes())
    }

    fn lay(&self, digits: &mut Digits) {
        digits.lay(self.to_le_bytes());
    }
}

impl<T: Stored, const N: usize> Stored for [T; N] {
    fn take(case: &mut Case<'_>) -> [T; N] {
        array::from_fn(|_| case.take())
    }

    fn lay(&self, digits: &mut Digits) {
        for value in self {
            value.lay(digits);
        }
    }
}
