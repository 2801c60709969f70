// The reader of job files: it checks a file, and reads the rights (02, A5), the requests, the pairs (02, A3) and the runs of an
// accepted one where they stand.
#![tactic(auto)]

mod sections;

ghost use Rattle.job.specs.Refusal.{told};
ghost use Rattle.std.specs.Prelude.{IfOk, ◌≡◌, ◌<◌, ◌≤◌, length, get_or};
ghost use Rattle.job.specs.declared.Request.{Request};
ghost use Rattle.job.specs.declared.Wait.{Wait};
ghost use Rattle.job.specs.Job.{right_of};
ghost use Rattle.jobfile.specs.declared.Run.{Run};
ghost use Rattle.jobfile.specs.Format.{most_bytes};
ghost use Rattle.jobfile.specs.Meaning.{header_refusal, meaning};
ghost use Rattle.jobfile.specs.Written.{longest_runs};
ghost use Rattle.reader.specs.Reader.{answer_of, check_told, Playing};

use crate::sections::{
    check_close, check_header, read_requests, read_rights, read_runs, read_waits,
};
use fields::bytes::word_at;
use fields::{request_place, run_place, wait_place};
use job::{Refusal, Request, Right, Wait};
use jobfile::{MOST_BYTES, Run};
use records::{request_here, right_of, run_here, wait_here};

// The counts of an accepted file's job, and the number of its runs.
#[derive(Clone, Copy, Debug, PartialEq, Eq)]
pub struct Checked {
    pub nodes: u32,
    pub heads: u32,
    pub rights: u32,
    pub requests: u32,
    pub waits: u32,
    pub grants: u32,
    pub runs: u32,
}

// Checks a file whose length and header are accepted, record by record to its end.
fn check_records(file: &[u8]) -> Result<Checked, Refusal>
    requires file_len_bound { length file.now ≤ most_bytes }
    requires header_admitted { header_refusal file.now ≡ 0 }
    ensures { check_told result ≡ answer_of (meaning file.now) }
{
    let nodes = u32::from(word_at(file, 2));
    let heads = u32::from(word_at(file, 4));
    let rights = read_rights(file, heads)?;
    let requests = read_requests(file, nodes, heads, rights)?;
    let waits = read_waits(file, requests, request_place(rights, requests))?;
    let runs = read_runs(file, heads, wait_place(rights, requests, waits))?;
    check_close(file, run_place(rights, requests, waits, runs.count))?;
    Ok(Checked {
        nodes,
        heads,
        rights,
        requests,
        waits,
        grants: runs.grants,
        runs: runs.count,
    })
}

// Checks a file: any bytes.
#[tactic(auto, using(crate::proofs::Checks::length_answers, crate::proofs::Checks::header_answers))]
fn check_file(file: &[u8]) -> Result<Checked, Refusal>
    ensures { check_told result ≡ answer_of (meaning file.now) }
{
    if MOST_BYTES < file.len() {
        return Err(Refusal::FileTooLong);
    }
    check_header(file)?;
    check_records(file)
}

// A file that is accepted, with the counts of its job: its records are read where they stand, which the counts tell.
#[derive(Clone, Copy)]
pub struct Accepted<'a> {
    pub file: &'a [u8],
    pub counts: Checked,
    ghost playing: { Playing file.now counts },
}

impl<'a> Accepted<'a> {
    // Checks a file: any bytes.
    pub fn check(file: &'a [u8]) -> Result<Accepted<'a>, Refusal>
        ensures told { told result ≡ (meaning file.now).number }
        ensures same { IfOk result (λ job. job.file.now ≡ file.now) }
    {
        let counts = check_file(file)?;
        Ok(Accepted { file, counts })
    }

    // The right of a head: every right where the job has no such records (02, A5).
    #[tactic(auto, using(crate::proofs::Playing::playing_righted, crate::proofs::Playing::rights_read))]
    pub fn right(self, head: u32) -> Right
        ensures { result ≡ right_of (meaning self.entry.file.now).job.rights head }
    {
        right_of(self.file, self.counts.rights, head)
    }

    // Request q.
    #[tactic(auto, using(crate::proofs::Playing::request_read))]
    pub fn request(self, q: u32) -> Request
        requires { q < self.counts.requests }
        ensures { (none : Request) → result ≡ get_or (meaning self.entry.file.now).job.requests q none }
    {
        request_here(self.file, request_place(self.counts.rights, q))
    }

    // Pair number `index` (02, A3).
    #[tactic(auto, using(crate::proofs::Playing::wait_read))]
    pub fn wait(self, index: u32) -> Wait
        requires { index < self.counts.waits }
        ensures { (none : Wait) → result ≡ get_or (meaning self.entry.file.now).job.waits index none }
    {
        let counts = self.counts;
        wait_here(self.file, wait_place(counts.rights, counts.requests, index))
    }

    // Run number `index`.
    #[tactic(auto, using(crate::proofs::Playing::run_read))]
    pub fn run(self, index: u32) -> Run
        requires { index < self.counts.runs }
        ensures { (none : Run) → result ≡ get_or (longest_runs (meaning self.entry.file.now).job.schedule) index none }
    {
        let counts = self.counts;
        run_here(
            self.file,
            run_place(counts.rights, counts.requests, counts.waits, index),
        )
    }
}
