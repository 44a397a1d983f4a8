// The transcript's lines, laid into a buffer that the caller lends. A line that does not fit leaves the
// buffer as it was.
#![tactic(auto, unfolding(crate::specs::Lines::name_of))]

ghost use Rattle.std.specs.Prelude.{◌≡◌, [], ◌++◌, ◌+◌, ◌≤◌, length, drop};
ghost use Rattle.lines.specs.Lines.{decimal_of, name_of, line_of, tally_line, lay_of, end_of};

use calls::Event;
use tally::Tally;

// The most bytes of an event's line (`line-bounds`).
pub const LINE: usize = 27;

// The most bytes of the tally's line (`tally-bounds`).
pub const TALLY_LINE: usize = 140;

// A text of at most SIZE bytes, made from its end to its start.
#[derive(Clone, Copy)]
struct Text<const SIZE: usize> {
    bytes: [u8; SIZE],
    start: usize,
}

impl<const SIZE: usize> Text<SIZE> {
    fn empty() -> Text<SIZE>
        ensures start { result.start ≡ SIZE }
        ensures bytes { drop result.start result.bytes ≡ [] }
    {
        Text {
            bytes: [0; SIZE],
            start: SIZE,
        }
    }

    // Puts other bytes before the text.
    fn put(&mut self, bytes: &[u8])
        requires { (length bytes.now ≤ self.old.start) × (self.old.start ≤ SIZE) }
        ensures start { self.new.start + length bytes.now ≡ self.old.start }
        ensures bytes { drop self.new.start self.new.bytes ≡ bytes.now ++ drop self.old.start self.old.bytes }
    {
        let end = self.start;
        self.start -= bytes.len();
        let text = &mut self.bytes[..];
        text[self.start..end].copy_from_slice(bytes);
    }

    // Puts a number before the text.
    #[tactic(auto, using(crate::proofs::Digits::as_decimal))]
    fn put_number(&mut self, n: u64)
        requires { (length (decimal_of n) ≤ self.old.start) × (self.old.start ≤ SIZE) }
        ensures start { self.new.start + length (decimal_of n) ≡ self.old.start }
        ensures bytes { drop self.new.start self.new.bytes ≡ decimal_of n ++ drop self.old.start self.old.bytes }
    {
        self.start = itoa::write_digits(n, &mut self.bytes, self.start);
    }
}

// The word for an event.
pub fn name(event: Event) -> &'static [u8]
    ensures { (result.now ≡ name_of event) × (length result.now ≤ 7) }
{
    match event {
        Event::Set => b"set",
        Event::Begun => b"begun",
        Event::Moved { .. } => b"moved",
        Event::Done { .. } => b"done",
        Event::Slept => b"slept",
        Event::Panic { .. } => b"panic",
        Event::Closure => b"closure",
        Event::Woken => b"woken",
        Event::Closed => b"closed",
        Event::Refused { .. } => b"refused",
    }
}

// The line of an event.
#[tactic(auto, using(crate::proofs::Digits::decimal_three, crate::proofs::Digits::decimal_ten, crate::proofs::Line::line_joined))]
fn event_text(number: u32, event: Event) -> Text<LINE>
    ensures { (result.start ≤ LINE) × (drop result.start result.bytes ≡ line_of number event) }
{
    let mut line = Text::empty();
    line.put(b"\n");
    line.put_number(u64::from(calls::woken(event)));
    line.put(b" ");
    line.put_number(u64::from(calls::value(event)));
    line.put(b" ");
    line.put(name(event));
    line.put(b" ");
    line.put_number(u64::from(number));
    line
}

// The line of the tally.
#[tactic(auto, using(crate::proofs::Digits::decimal_twenty, crate::proofs::TallyLine::tally_joined))]
fn tally_text(tally: Tally) -> Text<TALLY_LINE>
    ensures { (result.start ≤ TALLY_LINE) × (drop result.start result.bytes ≡ tally_line tally) }
{
    let mut line = Text::empty();
    line.put(b"\n");
    line.put_number(tally.refused);
    line.put(b" refused ");
    line.put_number(tally.panics);
    line.put(b" panics ");
    line.put_number(tally.wakes);
    line.put(b" wakes ");
    line.put_number(tally.sleeps);
    line.put(b" sleeps ");
    line.put_number(tally.grants);
    line.put(b"grants ");
    line
}

// Lays bytes at a place, where they fit, and answers the place behind them.
#[tactic(auto, using(crate::proofs::Laid::put_laid), unfolding(crate::specs::Lines::lay_of, crate::specs::Lines::end_of))]
fn lay(out: &mut [u8], at: usize, bytes: &[u8]) -> usize
    ensures value { result ≡ end_of (length out.old) at bytes.now }
    ensures out_after { out.new ≡ lay_of out.old at bytes.now }
{
    if at <= out.len() && bytes.len() <= out.len() - at {
        let end = at + bytes.len();
        out[at..end].copy_from_slice(bytes);
        return end;
    }
    at
}

// How long an event's line is.
pub fn line_length(number: u32, event: Event) -> usize
    ensures { result ≡ length (line_of number event) }
{
    LINE - event_text(number, event).start
}

// Lays an event's line at a place, and answers the place behind it.
pub fn put_line(out: &mut [u8], at: usize, number: u32, event: Event) -> usize
    ensures value { result ≡ end_of (length out.old) at (line_of number event) }
    ensures out_after { out.new ≡ lay_of out.old at (line_of number event) }
{
    let line = event_text(number, event);
    lay(out, at, &line.bytes[line.start..])
}

// Lays the tally's line at a place, and answers the place behind it.
pub fn put_tally(out: &mut [u8], at: usize, tally: Tally) -> usize
    ensures value { result ≡ end_of (length out.old) at (tally_line tally) }
    ensures out_after { out.new ≡ lay_of out.old at (tally_line tally) }
{
    let line = tally_text(tally);
    lay(out, at, &line.bytes[line.start..])
}
