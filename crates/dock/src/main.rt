// The program: it reads a job file on standard input, plays it, and prints the listing on standard output.
#![tactic(auto)]

mod input;

ghost use Rattle.std.specs.Prelude.{◌≡◌, ◌≤◌, ◌<◌, length, take, Err, IfSome, OnOk};
ghost use Rattle.std.specs.Io.KnownBytes.{Appends, Keeps};
ghost use Rattle.listing.specs.Listing.{listing};
ghost use Rattle.jobfile.specs.Format.{most_bytes};
ghost use Rattle.dock.specs.Dock.{output, longest, Put, PutInput, Printable};
ghost use Rattle.dock.specs.declared.Failure.TheVariants.{Unread};

use input::read_input;
use job::{MOST_NODES, MOST_REQUESTS, Played};
use std::fmt;
use std::io::{Read, Write};
use word::Word;

// Writes the text of a play into `out`, which has room for every text, and answers the text's length. Nothing here is too short,
// so that the listing is never turned down. That room is asked for in three functions: `out` is lent on twice, and a struct of it
// with the fact would be longer than the three clauses.
fn put_text(
    played: Played,
    table: &[Word],
    report: &[u32],
    linearization: &[u32],
    out: &mut [u8],
) -> usize
    requires printable { Printable played table.now report.now linearization.now }
    requires longest_in_bounds { longest ≤ length out.old }
    ensures { Put (listing played table.now report.now linearization.now)
        out.old out.new result }
{
    listing::list(played, table, report, linearization, out).unwrap_or(0)
}

// Plays a job file on buffers for the largest job, and writes its text or its refusal's line into `out`.
fn print_job(file: &[u8], out: &mut [u8]) -> usize
    requires { longest ≤ length out.old }
    ensures { Put (output file.now) out.old out.new result }
{
    let mut table = [0u32; MOST_NODES];
    let mut report = [0u32; 4 * MOST_REQUESTS];
    let mut linearization = [0u32; 2 * MOST_REQUESTS];
    let played = Played::from(player::play(file, &mut table, &mut report, &mut linearization));
    put_text(played, &table, &report, &linearization, out)
}

// Prints the text of an input of which the buffer holds as much as it has room for. The buffer is longer than every job
// file: an input that it can't hold is refused as too long, whatever its other bytes are.
fn print_input(buffer: &[u8], bytes: usize, out: &mut [u8]) -> usize
    requires most_bytes_in_bounds { most_bytes < length buffer.now }
    requires bytes_in_bounds { bytes ≤ length buffer.now }
    requires longest_in_bounds { longest ≤ length out.old }
    ensures put_input { PutInput buffer.now bytes out.old out.new result }
    ensures printed_in_bounds { result ≤ length out.new }
    ensures printed_taken { result ≡ length (take result out.new) }
{
    print_job(&buffer[..bytes], out)
}

// Why a run of the program printed no text, or only a part of it.
#[derive(Clone, Copy, Debug, PartialEq, Eq)]
pub enum Failure {
    Unread,
    Unwritten,
}

impl fmt::Display for Failure {
    fn fmt<W: fmt::Write>(&self, f: &mut fmt::Formatter<W>) -> fmt::Result {
        f.write_str(match self {
            Failure::Unread => "standard input can't be read",
            Failure::Unwritten => "standard output can't be written",
        })
    }
}

// Reads a job file, as far as it can matter, and prints its text. Where the input can't be read, nothing is printed. Of a reader
// and a writer whose bytes are known: the text of what was left to read stands behind what was written.
fn run<R: Read, W: Write>(reader: &mut R, writer: &mut W) -> Result<(), Failure>
    ensures printed { OnOk result (IfSome (R.remaining reader.old)
        (λ file. Appends (W.contents writer.old) (W.contents writer.new) (output file))) }
    ensures unread { result ≡ Err Unread → Keeps (W.contents writer.old) (W.contents writer.new) }
{
    let mut buffer = [0u8; 32769];
    let bytes = read_input(reader, &mut buffer).map_err(|_| Failure::Unread)?;
    let mut out = [0u8; 327808];
    let printed = print_input(&buffer, bytes, &mut out);
    writer
        .write_all(&out[..printed])
        .map_err(|_| Failure::Unwritten)
}

// Where the input can't be read, nothing is printed; where the text can't be written whole, standard error says so.
fn main(rt: HostRuntime) {
    if let Err(failure) = run(&mut rt.stdin(), &mut rt.stdout()) {
        let _ = eprintln!(rt; "dock: {failure}");
    }
}

#[cfg(test)]
mod tests {
    use super::*;
    use std::io;
    use std::io::ErrorKind;
    use std::test::Fail;

    // Gives its bytes one at a time, and then an error in place of the input's end.
    #[derive(Drop)]
    struct Torn<'a> {
        left: &'a [u8],
    }

    impl Read for Torn<'_> {
        fn read(&mut self, buffer: &mut [u8]) -> io::Result<usize> {
            match self.left.split_first() {
                Some((first, rest)) if 0 < buffer.len() => {
                    buffer[0] = *first;
                    self.left = rest;
                    Ok(1)
                }
                _ => Err(io::Error::from(ErrorKind::Other)),
            }
        }
    }

    // Takes one byte, and then nothing more.
    #[derive(Drop)]
    struct Full {
        bytes: usize,
    }

    impl Write for Full {
        fn write(&mut self, bytes: &[u8]) -> io::Result<usize> {
            if self.bytes == 0 && 0 < bytes.len() {
                self.bytes = 1;
                return Ok(1);
            }
            Err(io::Error::from(ErrorKind::Other))
        }

        fn flush(&mut self) -> io::Result<()> {
            Ok(())
        }
    }

    // A file that ends early, told; the same with a read, and with a write, that fails in the middle.
    #[test]
    fn failures_in_the_middle(rt: HostRuntime) -> Result<(), Fail> {
        let file = b"DK\x01\0";
        let mut out = Vec::new(rt.alloc());
        let mut whole = &file[..];
        assert_eq!(rt; run(&mut whole, &mut out), Ok(()));
        assert!(rt; out.as_slice() == b"refused 2\n".as_slice());
        let mut nothing = Vec::new(rt.alloc());
        let mut torn = Torn { left: &file[..] };
        assert_eq!(rt; run(&mut torn, &mut nothing), Err(Failure::Unread));
        assert!(rt; nothing.is_empty());
        let mut whole = &file[..];
        let mut full = Full { bytes: 0 };
        assert_eq!(rt; run(&mut whole, &mut full), Err(Failure::Unwritten));
        assert_eq!(rt; full.bytes, 1);
        Ok(())
    }
}
