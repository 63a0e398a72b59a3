// What a program that replays a list is given on standard input.
ghost use Rattle.std.specs.Prelude.{◌≤◌, length, IfOk};

use std::io;
use std::io::Read;

/// Reads to the end of the input, or until the room is full, and gives how many bytes came. Fails only where a read fails.
pub fn read_input<I: Input>(rt: &I, room: &mut [u8]) -> io::Result<usize>
    ensures { IfOk result (λ n. n ≤ length room.new) }
{
    // a loop over `read`: the library's `read_to_end` reads into a Vec, and what replays a list has fixed memory, as the library
    // under test has
    let mut reader = rt.reader();
    let mut done = 0;
    while done < room.len() {
        let n = reader.read(&mut room[done..])?;
        if n == 0 {
            break;
        }
        done += n;
    }
    Ok(done)
}
