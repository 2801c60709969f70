// The lines of one node, one request and one entry, from the numbers in a lent buffer.
ghost use Rattle.std.specs.Prelude.{◌+◌, ◌*◌, ◌<◌, ◌≤◌, length};
ghost use Rattle.text.specs.Writing.{Wrote};
ghost use Rattle.listing.specs.Listing.{entry_line, report_line, row, Words, Entries};

use word::Word;

// Writes the line of node i.
pub(crate) fn put_word(table: &[Word], i: u32, out: &mut [u8], at: usize) -> usize
    requires { i < length table.now }
    ensures { Wrote (row Words table.now i) at out.old out.new result }
{
    let word = table[i as usize];
    let parent = word::parent(word);
    let rank = word::rank(word);
    let numbers = [i, parent, rank];
    text::put_line(out, at, b"word", &numbers)
}

// Writes the line of request i under a number: i in a listing, another one where only some requests are listed.
pub fn put_request(number: u32, report: &[u32], i: u32, out: &mut [u8], at: usize) -> usize
    requires { 4 * (i + 1) ≤ length report.now }
    ensures { Wrote (report_line number report.now i) at out.old out.new result }
{
    let [answer, first, last, used] = report.as_chunks::<4>().0[i as usize];
    text::put_line(out, at, b"request", &[number, answer, first, last, used])
}

// Writes the line of an entry, by its point and the number of its request.
pub fn put_entry_line(point: u32, request: u32, out: &mut [u8], at: usize) -> usize
    ensures { Wrote (entry_line point request) at out.old out.new result }
{
    text::put_line(out, at, b"line", &[point, request])
}

// Writes the line of entry i.
pub(crate) fn put_entry(linearization: &[u32], i: u32, out: &mut [u8], at: usize) -> usize
    requires { 2 * (i + 1) ≤ length linearization.now }
    ensures { Wrote (row Entries linearization.now i) at out.old out.new result }
{
    let base = 2 * (i as usize);
    put_entry_line(linearization[base], linearization[base + 1], out, at)
}
