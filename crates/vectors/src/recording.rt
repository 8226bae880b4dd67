// A function's recording: differences from frame to frame, and where a frame is whole its request is asked.
ghost use Rattle.std.specs.Prelude.{◌≤◌, ◌<◌, length, IfOk};

use crate::calls::Function;
use crate::rooms::Frame;
use crate::{calls, rooms};
use std::io::{Print, Read};
use std::rt::Files;
use std::{fs, io};

// Asks the requests of the file that has the function's name, and prints how many were answered as recorded. One that is not is told by its number.
pub(crate) fn run(rt: &(impl Files + Print), name: &str, function: Function) -> io::Result<()> {
    let mut file = fs::open(rt, name)?;
    let mut frame: Frame = [rooms::BEFORE; 36838];
    let mut asked: u64 = 0;
    let mut right: u64 = 0;
    for _ in 0..count(&mut file)? {
        if completes(&mut file, &mut frame)? {
            asked += 1;
            if calls::answered(function, &frame) {
                right += 1;
            } else {
                println!(rt; "{name}, not as recorded: request {asked}")?;
            }
        }
    }
    println!(rt; "{name}, requests: {asked}")?;
    println!(rt; "{name}, answered as recorded: {right}")
}

// How many steps a recording has: its first four bytes.
fn count(file: &mut impl Read) -> io::Result<u64>
    ensures { IfOk result (λ n. n < 4294967296) }
{
    let mut head = [0u8; 4];
    read_full(file, &mut head)?;
    Ok(recorded::inner::four_bytes(&head, 0))
}

// Reads a step: a place, a count, and so many bytes for there. With a count of 0 the frame is whole.
fn completes(file: &mut impl Read, frame: &mut Frame) -> io::Result<bool> {
    let mut head = [0u8; 4];
    if read_full(file, &mut head)? < 4 {
        return Ok(false);
    }
    let place = recorded::inner::two_bytes(&head, 0) as usize;
    let end = place + recorded::inner::two_bytes(&head, 2) as usize;
    let Some(part) = frame.get_mut(place..end) else {
        return Ok(false);
    };
    read_full(file, part)?;
    Ok(place == end)
}

// Reads until the buffer is full or the recording ends, and gives how many bytes there are. A read takes one at the least, so there are no more reads than
// bytes. Not `read_exact`, which refuses a short recording, nor `read_to_end`, which wants memory; and each program has its own, since a crate of both would have
// a public function whose answer no contract can determine, and docs/STAMP.md has no exception.
fn read_full(file: &mut impl Read, buffer: &mut [u8]) -> io::Result<usize>
    ensures { IfOk result (λ n. n ≤ length buffer.new) }
{
    let mut count = 0;
    for _ in 0..buffer.len() {
        let taken = file.read(&mut buffer[count..])?;
        if taken == 0 {
            break;
        }
        count += taken;
    }
    Ok(count)
}
