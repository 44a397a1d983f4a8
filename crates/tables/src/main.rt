// Prints what each module does in one step: a row for each position of its calls, each word of interest that
// the position's operation may find, and each way that the step may go. The file `stdout`, to which that is
// held, has what the standard library's own code does there.
#![tactic(auto)]

mod names;
mod order;
mod position;
mod rows;

use std::io;

fn main(rt: HostRuntime) -> io::Result<()> {
    order::mutex_positions(&rt)?;
    order::parker_positions(&rt)?;
    order::condvar_positions(&rt)?;
    order::once_positions(&rt)?;
    order::rwlock_positions(&rt)
}
