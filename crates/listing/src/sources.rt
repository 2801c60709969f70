// The buffers that a play left, checked to hold all that its text shows, and the text from them.
ghost use Rattle.std.specs.Prelude.{IfOk, ◌≡◌, ◌*◌, ltb, cond, length};
ghost use Rattle.job.specs.Refusal.{told};
ghost use Rattle.text.specs.Writing.{Wrote};
ghost use Rattle.listing.specs.Listing.{job_line, rows, tally_line, refused_line, accepted, listing, Enough, Narrow};
ghost use Rattle.listing.specs.Listing.{sources_short};

use crate::sections::{put_entry, put_request, put_word};
use job::{Played, Refusal};
use word::Word;

// Refuses a buffer that is shorter than so many numbers a line, for each of `count` lines.
fn check_room(buffer: &[u32], size: u32, count: u32) -> Result<(), Refusal>
    ensures { told result ≡ cond (ltb (length buffer.now) (size * count)) 14 0 }
{
    if (buffer.len() as u64) < u64::from(size) * u64::from(count) {
        return Err(Refusal::Buffer);
    }
    Ok(())
}

// A play, and the buffers that it left: each has the numbers that the lines show, and these have 32 bits, so that any text of them
// can be counted. Nobody compares or prints lent buffers.
#[derive(Clone, Copy)]
pub struct Sources<'a> {
    pub played: Played,
    pub table: &'a [Word],
    pub report: &'a [u32],
    pub linearization: &'a [u32],
    ghost enough: { Enough played table.now report.now linearization.now },
    ghost narrow: { Narrow table.now report.now linearization.now },
}

impl<'a> Sources<'a> {
    // Checks the lengths of the three buffers.
    pub fn check(
        played: Played,
        table: &'a [Word],
        report: &'a [u32],
        linearization: &'a [u32],
    ) -> Result<Sources<'a>, Refusal>
        ensures told { told result
            ≡ cond (sources_short played table.now report.now linearization.now) 14 0 }
        ensures same { IfOk result (λ sources. (sources.played ≡ played)
            × ((sources.table.now ≡ table.now)
            × ((sources.report.now ≡ report.now) × (sources.linearization.now ≡ linearization.now)))) }
    {
        check_room(table, 1, played.nodes)?;
        check_room(report, 4, played.requests)?;
        check_room(linearization, 2, played.entries)?;
        Ok(Sources {
            played,
            table,
            report,
            linearization,
        })
    }

    // Writes the job's line.
    fn put_job(self, out: &mut [u8]) -> usize
        ensures { Wrote (job_line self.entry.played) 0 out.old out.new result }
    {
        let played = self.played;
        let numbers = [played.nodes, played.heads, played.requests, played.grants];
        text::put_line(out, 0, b"job", &numbers)
    }

    // Writes the lines of all nodes, requests and entries.
    fn put_rows(self, out: &mut [u8], at: usize) -> usize
        ensures { Wrote (rows self.entry.played self.entry.table.now self.entry.report.now self.entry.linearization.now) at
            out.old out.new result }
    {
        let played = self.played;
        let words = text::put_each(out, at, played.nodes, |i, out, at| {
            put_word(self.table, i, out, at)
        });
        let requests = text::put_each(out, words, played.requests, |i, out, at| {
            put_request(i, self.report, i, out, at)
        });
        text::put_each(out, requests, played.entries, |i, out, at| {
            put_entry(self.linearization, i, out, at)
        })
    }

    // Writes the tally's line.
    fn put_tally(self, out: &mut [u8], at: usize) -> usize
        ensures { Wrote (tally_line self.entry.played.tally) at out.old out.new result }
    {
        let tally = self.played.tally;
        let numbers = [tally.idle, tally.failed, tally.links, tally.working];
        text::put_line(out, at, b"tally", &numbers)
    }

    // Writes the text of a job that was not refused.
    fn put_accepted(self, out: &mut [u8]) -> usize
        ensures { Wrote (accepted self.entry.played self.entry.table.now self.entry.report.now self.entry.linearization.now) 0
            out.old out.new result }
    {
        let job = self.put_job(out);
        let rows = self.put_rows(out, job);
        self.put_tally(out, rows)
    }

    // Writes a refusal's line.
    fn put_refused(self, out: &mut [u8]) -> usize
        ensures { Wrote (refused_line self.entry.played.number) 0 out.old out.new result }
    {
        text::put_line(out, 0, b"refused", &[self.played.number])
    }

    // Writes the text.
    #[tactic(auto, unfolding(crate::specs::Listing::listing))]
    pub fn put(&self, out: &mut [u8]) -> usize
        ensures { Wrote (listing self.now.played self.now.table.now self.now.report.now self.now.linearization.now) 0
            out.old out.new result }
    {
        if self.played.number != 0 {
            return self.put_refused(out);
        }
        self.put_accepted(out)
    }

    // The length of the text: writing it where there is no room only counts. A sheet has its own two lines: a trait of texts would
    // have to name the text by a ghost function, and have both contracts again.
    pub fn length(self) -> usize
        ensures { result ≡ length (listing self.entry.played self.entry.table.now self.entry.report.now self.entry.linearization.now) }
    {
        let mut none = [0u8; 0];
        self.put(&mut none)
    }
}
