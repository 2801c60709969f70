// What the writer checks before it writes a byte, in document 01's order with the rights behind the heads (02, A5) and the
// pairs behind the requests (02, A3), and the length of the file.
ghost use Rattle.std.specs.Prelude.{◌≡◌, ◌+◌, ◌<◌, ◌≤◌, ◌∷◌, length, drop};
ghost use Rattle.job.specs.Job.{right_of};
ghost use Rattle.job.specs.Refusal.{told};
ghost use Rattle.jobfile.specs.Format.{◌then◌, sizes_refusal, asked_refusal, no_pair};
ghost use Rattle.jobfile.specs.Written.{longest_runs};
ghost use Rattle.jobfile.specs.Draft.{rights_given, fields_of, pairs_of, complete_refusal, each_right_refusal, count_refusal, each_refusal};
ghost use Rattle.jobfile.specs.Draft.{pairs_refusal, grants_refusal};
ghost use Rattle.writer.specs.Write.{given, answer, written_told};

use fields::{
    check_fields, check_kind, check_pair, check_right, check_sizes, does_extend, request_place,
};
use job::{MOST_REQUESTS, Refusal, Right, Wait, every_right};
use jobfile::{CLOSE_SIZE, Fields, MOST_BYTES, RUN_SIZE, Run, WAIT_SIZE};

// The right of a head in a list of rights, which is empty or has one a head.
#[tactic(auto, using(crate::proofs::Rights::right_absent))]
fn right_of(rights: &[u32], head: u32) -> Right
    ensures { result ≡ right_of (rights_given rights.now) head }
{
    match rights.as_chunks::<3>().0.get(head as usize) {
        Some(&[head, rights, sight]) => Right {
            head,
            rights,
            sight,
        },
        None => every_right(head),
    }
}

// Checks the number of rights in a job of that many heads: none, or one a head.
#[tactic(auto, unfolding(jobfile::specs::Draft::complete_refusal))]
fn check_complete(heads: u32, count: usize) -> Result<(), Refusal>
    ensures { told result ≡ complete_refusal heads count }
{
    if count == 0 || count == heads as usize {
        return Ok(());
    }
    Err(Refusal::Rights)
}

// Checks the rights one by one, each with its number.
#[tactic(auto, using(crate::proofs::Rights::next_right))]
fn check_each_right(heads: u32, rights: &[u32]) -> Result<(), Refusal>
    requires { length (rights_given rights.now) ≤ heads }
    ensures { told result ≡ each_right_refusal heads 0 (rights_given rights.now) }
{
    let (rows, _) = rights.as_chunks::<3>();
    let mut number: u32 = 0;
    for &[head, rights, sight] in rows {
        let right = Right {
            head,
            rights,
            sight,
        };
        check_right(heads, number, right)?;
        number += 1;
    }
    Ok(())
}

// Checks the list of rights: their number, then each.
#[tactic(auto, using(crate::proofs::Rights::rights_told))]
fn check_rights(heads: u32, rights: &[u32]) -> Result<(), Refusal>
    ensures { told result ≡ (complete_refusal heads (length (rights_given rights.now))
        then each_right_refusal heads 0 (rights_given rights.now)) }
{
    check_complete(heads, rights.len() / 3)?;
    check_each_right(heads, rights)
}

// Checks a request's numbers, and its kind where the heads have these rights.
#[tactic(auto, using(jobfile::proofs::Refusals::asked_free, crate::proofs::Rights::rights_count))]
fn check_asked(nodes: u32, heads: u32, rights: &[u32], fields: Fields) -> Result<(), Refusal>
    ensures { told result ≡ asked_refusal nodes heads (rights_given rights.now) fields }
{
    check_fields(nodes, heads, fields)?;
    // tested here, so that jobs without rights are written as fast as ever
    if rights.len() < 3 {
        return Ok(());
    }
    let right = right_of(rights, fields.head);
    check_kind(right.rights, fields.kind)
}

// Checks the requests one by one.
#[tactic(auto, using(crate::proofs::Requests::next_fields))]
fn check_requests(nodes: u32, heads: u32, rights: &[u32], requests: &[u32]) -> Result<(), Refusal>
    ensures { told result ≡ each_refusal nodes heads (rights_given rights.now) (fields_of requests.now) }
{
    let (rows, _) = requests.as_chunks::<4>();
    for &[head, kind, x, y] in rows {
        check_asked(nodes, heads, rights, Fields { head, kind, x, y })?;
    }
    Ok(())
}

// Checks the pairs one by one in a job of that many requests, each behind the one before it.
#[tactic(auto, using(crate::proofs::Pairs::next_pair))]
fn check_waits(count: u32, waits: &[u32]) -> Result<(), Refusal>
    ensures { told result ≡ pairs_refusal count no_pair (pairs_of waits.now) }
{
    let mut before = Wait {
        later: 0,
        earlier: 0,
    };
    let (rows, _) = waits.as_chunks::<2>();
    for &[later, earlier] in rows {
        let wait = Wait { later, earlier };
        check_pair(count, before, wait)?;
        before = wait;
    }
    Ok(())
}

// Checks that the head of each grant is one of the job's.
#[tactic(auto, using(crate::proofs::Grants::no_grant))]
fn check_grants(heads: u32, grants: &[u8]) -> Result<(), Refusal>
    ensures { told result ≡ grants_refusal heads grants.now }
{
    for &head in grants {
        if heads <= u32::from(head) {
            return Err(Refusal::Grant);
        }
    }
    Ok(())
}

// The longest run that starts at a grant.
pub fn run_at(grants: &[u8], at: usize) -> Run
    requires { at < length grants.now }
    ensures { longest_runs (drop at grants.now) ≡ result ∷ longest_runs (drop (at + result.count) grants.now) }
{
    let mut run = Run {
        head: grants[at],
        count: 1,
    };
    let rest = &grants[at + 1..];
    for &head in rest {
        if !does_extend(run, head) {
            return run;
        }
        run.count += 1;
    }
    run
}

// How many runs the grants make. A turn is a run, and no index is counted.
fn run_count(grants: &[u8]) -> usize
    ensures { result ≡ length (longest_runs grants.now) }
{
    let mut runs = 0;
    let mut i = 0;
    while i < grants.len() {
        i += usize::from(run_at(grants, i).count);
        runs += 1;
    }
    runs
}

// What a file is written from, as the writer is given it.
#[derive(Clone, Copy, Debug, PartialEq, Eq)]
pub struct Draft<'a> {
    pub nodes: u32,
    pub heads: u32,
    pub rights: &'a [u32],
    pub requests: &'a [u32],
    pub waits: &'a [u32],
    pub grants: &'a [u8],
}

impl<'a> Draft<'a> {
    // Checks the numbers, before the length of their file is asked for.
    #[tactic(auto, using(crate::proofs::Requests::fields_count), unfolding(jobfile::specs::Draft::count_refusal))]
    fn check_numbers(self) -> Result<(), Refusal>
        ensures { told result ≡ (sizes_refusal self.entry.nodes self.entry.heads
            then (complete_refusal self.entry.heads (length (rights_given self.entry.rights.now))
            then each_right_refusal self.entry.heads 0 (rights_given self.entry.rights.now))
            then count_refusal (length (fields_of self.entry.requests.now))
            then each_refusal self.entry.nodes self.entry.heads (rights_given self.entry.rights.now) (fields_of self.entry.requests.now)
            then pairs_refusal (length (fields_of self.entry.requests.now)) no_pair (pairs_of self.entry.waits.now)
            then grants_refusal self.entry.heads self.entry.grants.now) }
    {
        check_sizes(self.nodes, self.heads)?;
        check_rights(self.heads, self.rights)?;
        if MOST_REQUESTS < self.requests.len() / 4 {
            return Err(Refusal::TooManyRequests);
        }
        check_requests(self.nodes, self.heads, self.rights, self.requests)?;
        check_waits((self.requests.len() / 4) as u32, self.waits)?;
        check_grants(self.heads, self.grants)
    }

    // The writer's answer for a buffer of this length. Nothing is written before it stands.
    #[tactic(auto, using(crate::proofs::Answers::checked_lemmas))]
    pub fn check(self, room: usize) -> Result<u32, Refusal>
        ensures { written_told result
            ≡ answer (given self.entry.nodes self.entry.heads self.entry.rights.now self.entry.requests.now
            self.entry.waits.now self.entry.grants.now) room }
    {
        self.check_numbers()?;
        // counted before the rest is known: the loop has few registers
        let runs = run_count(self.grants);
        // what the file has beside its pairs and runs; and beside its runs, once the pairs are known to be few
        let front = request_place(
            (self.rights.len() / 3) as u32,
            (self.requests.len() / 4) as u32,
        );
        let ends = front + CLOSE_SIZE;
        let pairs = self.waits.len() / 2;
        if (MOST_BYTES - ends) / WAIT_SIZE < pairs {
            return Err(Refusal::FileTooLong);
        }
        let others = ends + WAIT_SIZE * pairs;
        if (MOST_BYTES - others) / RUN_SIZE < runs {
            return Err(Refusal::FileTooLong);
        }
        let bytes = others + RUN_SIZE * runs;
        if room < bytes {
            return Err(Refusal::Buffer);
        }
        Ok(bytes as u32)
    }
}
