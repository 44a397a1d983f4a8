// A case's line: whether its world is sound, the answer, and the next world.
use crate::bytes::{Case, Hex};
use crate::case::{CASE, Deed};
use acts::Fields;
use calls::Event;
use std::{fmt, str};
use world::World;

// More bytes than a line has: 16 of names, 21 of numbers, two for each of a world's 1,417, and its end.
pub const LINE: usize = 4096;

// The line of a case.
#[derive(Clone, Copy)]
pub struct Line<'a>(pub &'a [u8; CASE]);

impl fmt::Display for Line<'_> {
    fn fmt<W: fmt::Write>(&self, f: &mut fmt::Formatter<W>) -> fmt::Result {
        let bytes = self.0;
        let mut case = Case::new(bytes);
        let world: World = case.take();
        f.write_str(soundness(world))?;
        match Deed::take(&mut case) {
            Deed::Act(fields) => write_act(f, world, fields),
            Deed::Solo { thread, budget } => write_solo(f, world, thread, budget),
        }
    }
}

fn soundness(world: World) -> &'static str {
    if sound::sound(world) {
        "sound"
    } else {
        "unsound"
    }
}

fn write_act<W: fmt::Write>(
    f: &mut fmt::Formatter<W>,
    world: World,
    fields: Fields,
) -> fmt::Result {
    let acted = acts::act(world, fields);
    let name = str::from_utf8(lines::name(acted.event)).unwrap_or_default();
    let value = calls::value(acted.event);
    let woken = calls::woken(acted.event);
    write!(f, " {name} {value} {woken} {}", Hex(&acted.world))
}

fn write_solo<W: fmt::Write>(
    f: &mut fmt::Formatter<W>,
    world: World,
    thread: u8,
    budget: u16,
) -> fmt::Result {
    let ran = solo::solo(world, thread, budget);
    let name = solo::name(ran.stop);
    let name = str::from_utf8(name.trim_ascii_end()).unwrap_or_default();
    let value = solo::value(ran.stop);
    write!(
        f,
        " {name} {value} {} {} {}",
        ran.count,
        ran.woken,
        Hex(&ran.world)
    )
}
