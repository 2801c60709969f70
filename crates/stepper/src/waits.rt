// What a head waits for (02, A3): the pairs of an accepted file, searched where they stand, and the heads' records.
ghost use Rattle.std.specs.Prelude.{◌≡◌, cond, ◌+◌, ◌*◌, ◌≤◌, ◌<◌, length};
ghost use Rattle.process.specs.Process.{one_higher};
ghost use Rattle.rules.specs.Report.{unfinished};
ghost use Rattle.rules.specs.State.{lowest_wait, wait_of};
ghost use Rattle.stepper.specs.Buffers.{rows_of};
ghost use Rattle.stepper.specs.Shown.{waits_in, noted};
ghost use Rattle.stepper.specs.Waits.{Parted, frees, is_due};

use job::Answer;
use process::Head;
use reader::{Accepted, Checked};

// The place of the first pair of request q, or where it would stand: the pairs rise, so that half of them go at each look. They
// stand in the file as bytes: `partition_point` over rows of six would read `[_, _, low, high, _, _]` here, between places that
// `reader` alone knows, where the loop asks for `job.wait(middle).later`.
fn first_pair(job: Accepted, q: u32) -> u32
    ensures { Parted (waits_in job.entry.file.now) q result }
{
    let mut low: u32 = 0;
    let mut high = job.counts.waits;
    while low < high {
        let middle = low + (high - low) / 2;
        if job.wait(middle).later < q {
            low = middle + 1;
        } else {
            high = middle;
        }
    }
    low
}

// Whether a request has no answer in the report yet.
#[tactic(auto, using(crate::proofs::Lists::answer_read))]
fn is_unfinished(report: &[u32], q: u32) -> bool
    requires { 4 * q + 4 ≤ length report.now }
    ensures { result ≡ unfinished (rows_of report.now) q }
{
    report[4 * (q as usize)] == 0
}

// An accepted file with a report that has a row for each of its requests.
#[derive(Clone, Copy)]
pub struct Reported<'a> {
    pub job: Accepted<'a>,
    pub report: &'a [u32],
    ghost rows: { 4 * job.counts.requests ≤ length report.now },
}

impl<'a> Reported<'a> {
    // The lowest unfinished request that request q waits for: that of its first pair that holds.
    pub fn lowest_wait(self, q: u16) -> Option<u16>
        ensures lowest { one_higher result
            ≡ lowest_wait (waits_in self.entry.job.file.now) (rows_of self.entry.report.now) q }
        ensures fits { one_higher result < 65536 }
    {
        for i in first_pair(self.job, u32::from(q))..self.job.counts.waits {
            let wait = self.job.wait(i);
            if wait.later != u32::from(q) {
                return None;
            }
            if is_unfinished(self.report, wait.earlier) {
                return Some(wait.earlier as u16);
            }
        }
        None
    }

    // What a head waits for: its next request may wait as long as the head rests.
    fn wait_of(self, head: Head) -> Option<u16>
        ensures wanted { one_higher result
            ≡ wait_of (waits_in self.entry.job.file.now) (rows_of self.entry.report.now) head }
        ensures fits { one_higher result < 65536 }
    {
        if process::is_resting(head) {
            return self.lowest_wait(head.task.request);
        }
        None
    }

    // The record of head k after the request `done` of head h is finished.
    pub fn renewed_head(self, head: Head, k: u32, h: u32, done: u16) -> Head
        requires { done < 65535 }
        ensures { result ≡ cond (is_due k h head done)
            (noted (waits_in self.entry.job.file.now) (rows_of self.entry.report.now) head) head }
    {
        if is_due(k, h, head, done) {
            return process::waiting_for(head, process::one_higher(self.wait_of(head)));
        }
        head
    }
}

// Whether the record of head k is to be looked at again after a request of head h: it is that head's, or the head waited
// for the request.
fn is_due(k: u32, h: u32, head: Head, done: u16) -> bool
    requires { done < 65535 }
    ensures { result ≡ is_due k h head done }
{
    k == h || head.task.waits == done + 1
}

// Whether a grant that gave that answer may free a head, so that the heads' records are looked at again.
pub fn frees(counts: Checked, answer: Answer) -> bool
    ensures { result ≡ frees counts.waits answer }
{
    counts.waits != 0 && rules::is_final(answer)
}
