// The lines of a sheet, from the numbering and the buffers that a play leaves.
ghost use Rattle.std.specs.Prelude.{◌≡◌, ◌<◌, length};
ghost use Rattle.text.specs.Text.{each};
ghost use Rattle.text.specs.Writing.{Wrote};
ghost use Rattle.listing.specs.Listing.{listed_told};
ghost use Rattle.sheet.specs.Call.{written_of};
ghost use Rattle.sheet.specs.Buffers.{request_line_in, entry_line_in, sheet_in};
ghost use Rattle.sheet.specs.Buffers.{Readable, Narrow};

use job::Refusal;
use listing::sections::{put_entry_line, put_request};

// What a sheet is written from: the numbers of the seen requests, and the report and the line-up that a play left. The buffers have
// all that the lines show, and the numbers are so small that any text of them can be counted. Nobody compares or prints
// lent buffers.
#[derive(Clone, Copy)]
pub struct SheetParts<'a> {
    pub numbers: &'a [Option<u16>],
    pub report: &'a [u32],
    pub requests: u32,
    pub linearization: &'a [u32],
    pub entries: u32,
    ghost readable: { Readable numbers.now report.now requests linearization.now entries },
    ghost narrow: { Narrow numbers.now report.now linearization.now },
}

impl<'a> SheetParts<'a> {
    // Writes the line of request q, if it is seen.
    fn put_seen_request(self, q: u32, out: &mut [u8], at: usize) -> usize
        requires { q < self.requests }
        ensures { Wrote (request_line_in self.entry.numbers.now self.entry.report.now q) at out.old out.new result }
    {
        let Some(number) = self.numbers[q as usize] else {
            return at;
        };
        put_request(u32::from(number), self.report, q, out, at)
    }

    // Writes the lines of the seen requests.
    fn put_requests(self, out: &mut [u8], at: usize) -> usize
        ensures { Wrote (each (request_line_in self.entry.numbers.now self.entry.report.now) self.entry.requests) at
            out.old out.new result }
    {
        text::put_each(out, at, self.requests, |q, out, at| {
            self.put_seen_request(q, out, at)
        })
    }

    // Writes the line of entry i, if its request is seen.
    fn put_seen_entry(self, i: u32, out: &mut [u8], at: usize) -> usize
        requires { i < self.entries }
        ensures { Wrote (entry_line_in self.entry.numbers.now self.entry.linearization.now i) at out.old out.new result }
    {
        let base = 2 * (i as usize);
        let point = self.linearization[base];
        let request = self.linearization[base + 1];
        let Some(number) = self.numbers[request as usize] else {
            return at;
        };
        put_entry_line(point, u32::from(number), out, at)
    }

    // Writes the lines of the seen requests' entries.
    fn put_entries(self, out: &mut [u8], at: usize) -> usize
        ensures { Wrote (each (entry_line_in self.entry.numbers.now self.entry.linearization.now) self.entry.entries) at
            out.old out.new result }
    {
        text::put_each(out, at, self.entries, |i, out, at| {
            self.put_seen_entry(i, out, at)
        })
    }

    // Writes the text.
    fn put(self, out: &mut [u8]) -> usize
        ensures { Wrote (sheet_in self.entry.numbers.now self.entry.report.now self.entry.requests
            self.entry.linearization.now self.entry.entries) 0
            out.old out.new result }
    {
        let next = self.put_requests(out, 0);
        self.put_entries(out, next)
    }

    // The length of the text: writing it where there is no room only counts.
    fn length(self) -> usize
        ensures { result ≡ length (sheet_in self.entry.numbers.now self.entry.report.now self.entry.requests
            self.entry.linearization.now self.entry.entries) }
    {
        let mut none = [0u8; 0];
        self.put(&mut none)
    }

    // Writes the text and answers its length, or refuses and leaves `out` as it was where it has no room.
    pub fn write(self, out: &mut [u8]) -> Result<usize, Refusal>
        ensures { record { answer = listed_told result; out = out.new }
            ≡ written_of (sheet_in self.entry.numbers.now self.entry.report.now self.entry.requests
            self.entry.linearization.now self.entry.entries) out.old }
    {
        let bytes = self.length();
        if out.len() < bytes {
            return Err(Refusal::Buffer);
        }
        self.put(out);
        Ok(bytes)
    }
}
