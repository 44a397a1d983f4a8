// Feeds `act` with worlds, sound and forged, and prints for each whether it is sound and what `act` answers. The
// file `stdout`, to which that is held, was worked out by hand from document 01, and no number in it was taken from
// this program.
#![tactic(auto)]

mod calling;
mod forge;
mod holds;
mod lines;
mod names;
mod needs;
mod numbers;
mod places;
mod records;
mod refused;
mod shown;
mod sleepers;
mod starts;
mod values;
mod words_held;
mod worlds;

use std::io;

fn main(rt: HostRuntime) -> io::Result<()> {
    names::lines(&rt)?;
    values::lines(&rt)?;
    sleepers::lines(&rt)?;
    words_held::lines(&rt)?;
    needs::lines(&rt)?;
    starts::lines(&rt)?;
    refused::lines(&rt)?;
    values::failing_lines(&rt)?;
    refused::order_lines(&rt)?;
    numbers::lines(&rt)
}
