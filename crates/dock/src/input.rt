// An input, read into a buffer; a read that fails is told apart from the input's end.
ghost use Rattle.std.specs.Prelude.{◌≤◌, length, take, IfOk, IfSome};
ghost use Rattle.std.specs.Io.KnownBytes.{Consumes};
ghost use Rattle.dock.specs.Dock.{Holds};

use std::io;
use std::io::Read;

// Reads until the buffer is full, the input ends or a read fails, and gives how many bytes were read to the start of the buffer.
// Of a reader whose bytes are known, the buffer then holds as much as it has room for. A read that a signal interrupts counts as
// one that fails; the program handles no signal. A turn is a read, whose length no index tells.
#[tactic(auto, using(crate::proofs::Reading::read_on))]
pub fn read_input<R: Read>(reader: &mut R, buffer: &mut [u8]) -> io::Result<usize>
    ensures bytes_in_bounds { IfOk result (λ bytes. bytes ≤ length buffer.new) }
    ensures holds { IfOk result (λ bytes.
        IfSome (R.remaining reader.old) (λ input. Holds input buffer.new bytes)) }
    ensures consumed { IfOk result (λ bytes.
        Consumes (R.remaining reader.old) (R.remaining reader.new) (take bytes buffer.new)) }
{
    let mut done: usize = 0;
    while done < buffer.len() {
        let some = reader.read(&mut buffer[done..])?;
        if some == 0 {
            break;
        }
        done += some;
    }
    Ok(done)
}
