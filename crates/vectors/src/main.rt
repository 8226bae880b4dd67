// Asks the recorded requests of each function, and prints how many there were and how many were answered as recorded. `rt ci` holds
// what is printed to the file `stdout`, so that one other answer fails. tests/README.md has the layout of a recording.

#![tactic(auto)]

mod calls;
mod recording;
mod rooms;

use std::io;

fn main(rt: HostRuntime) -> io::Result<()> {
    for (name, function) in calls::ASKED {
        recording::run(&rt, name, function)?;
    }
    Ok(())
}
