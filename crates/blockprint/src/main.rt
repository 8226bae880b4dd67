// Reads one block from standard input and prints it coded (01, "Measured pieces"). All that it prints is `printing::printed`.

#![tactic(auto)]

ghost use Rattle.std.specs.Prelude.{◌≤◌, length, IfOk};

use std::io;
use std::io::{Print, Read};

fn main(rt: HostRuntime) -> io::Result<()> {
    // room for one byte more than wanted, so that a longer input is seen
    let mut input = [0u8; 32];
    let count = read_full(&mut rt.stdin(), &mut input)?;
    let text = printing::printed(&input[..count]);
    rt.write_all(&text.bytes[..text.len])
}

// Reads until the buffer is full or the input ends, and gives how many bytes there are. A read takes one at the least, so there are no more reads than
// bytes. Not `read_exact`, which refuses a short input, nor `read_to_end`, which wants memory; and each program has its own, since a crate of both would have
// a public function whose answer no contract can determine, and docs/STAMP.md has no exception.
fn read_full<R: Read>(reader: &mut R, buffer: &mut [u8]) -> io::Result<usize>
    ensures { IfOk result (λ n. n ≤ length buffer.new) }
{
    let mut count = 0;
    for _ in 0..buffer.len() {
        let taken = reader.read(&mut buffer[count..])?;
        if taken == 0 {
            break;
        }
        count += taken;
    }
    Ok(count)
}
