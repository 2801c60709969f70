// What stands before the first grant: the table's start, the report's zeros, and every head before its first request.
#![tactic(auto)]

ghost use Rattle.std.specs.Prelude.{◌≡◌, map, ◌*◌, ◌≤◌, length, replicate};
ghost use Rattle.word.specs.Word.{encode, node_limit};
ghost use Rattle.job.specs.Job.{most_heads};
ghost use Rattle.mask.specs.Mask.{mask_of};
ghost use Rattle.rules.specs.Table.{fresh};
ghost use Rattle.rules.specs.State.{resting};
ghost use Rattle.stepper.specs.Buffers.{rows_of};
ghost use Rattle.stepper.specs.Shown.{requests_in, waits_in};
ghost use Rattle.stepper.specs.Index.{Indexes};
ghost use Rattle.start.specs.Start.{first_requests, first_task, at_rest, is_request};

use job::MOST_HEADS;
use process::{Head, Stage, Task, one_higher, waiting_for};
use reader::Accepted;
use stepper::Heads;
use stepper::requests::next_request;
use stepper::waits::Reported;
use word::{Node, Word};

// Each node its own parent, rank 0.
pub fn fresh_table(table: &mut [Word])
    requires { length table.old ≤ node_limit }
    ensures { table.new ≡ map encode (fresh (length table.old)) }
{
    for i in 0..table.len() {
        table[i] = Word::from(Node {
            rank: 0,
            parent: i as u16,
        });
    }
}

// The requests' report numbers zero.
pub fn clear_report(report: &mut [u32])
    ensures { report.new ≡ replicate (length report.old) 0 }
{
    report.fill(0);
}

// The first request of each head, or the number of requests where it has none, as no head has that the job does not have. A
// number and no Option: a head's record has the number of requests there, in its two bytes, and so has the index.
#[tactic(auto, using(crate::proofs::Index::few_requests, crate::proofs::Index::few_heads_in_all, stepper::proofs::Needs::next_small))]
pub fn first_requests(job: Accepted) -> [u16; MOST_HEADS]
    ensures { result ≡ first_requests (requests_in job.entry.file.now) 0 most_heads }
{
    let mut firsts = [job.counts.requests as u16; MOST_HEADS];
    for h in 0..job.counts.heads {
        firsts[h as usize] = next_request(job, h, 0).unwrap_or(job.counts.requests) as u16;
    }
    firsts
}

// The numbers in the index of next requests: one for each request, and two more. With these the compiler lays the array of
// heads, which is beside the index on the stack of a play, on a multiple of 16 (docs/DECISIONS.md, "Heads by value, and
// speed"); bench/shape looks at it.
pub const INDEX_ROOM: usize = 514;

// For each request the next one of its head, or the number of requests: an index for the grants, in a lent array. It is made
// from the last request on, with the first request of each head so far. As Options the index would take 1,028 bytes more of the
// stack, and a play more than its bar (docs/TRUST.md).
#[tactic(auto, using(crate::proofs::Index::few_requests, reader::proofs::Playing::playing_count))]
pub fn index_requests(job: Accepted, index: &mut [u16; INDEX_ROOM])
    ensures { Indexes (requests_in job.entry.file.now) index.new }
{
    let requests = job.counts.requests;
    let mut firsts = [requests as u16; MOST_HEADS];
    for q in (0..requests).rev() {
        let h = usize::from(job.request(q).head);
        index[q as usize] = firsts[h];
        firsts[h] = q as u16;
    }
}

// A head at rest before a request, which waits for none.
fn resting(request: u16) -> Head
    ensures { result ≡ resting request }
{
    Head {
        stage: Stage::Resting,
        task: Task {
            x: 0,
            y: 0,
            request,
            waits: one_higher(None),
        },
    }
}

// The tasks of the heads before their first requests, with what these wait for (02, A3): at the start none is finished.
pub fn first_tasks(job: Accepted, report: &[u32], firsts: [u16; MOST_HEADS]) -> [Task; MOST_HEADS]
    requires { 4 * job.counts.requests ≤ length report.now }
    ensures { result ≡ map (first_task (waits_in job.entry.file.now) (rows_of report.now)) firsts }
{
    let reported = Reported { job, report };
    let mut tasks = [resting(0).task; MOST_HEADS];
    for h in 0..MOST_HEADS {
        let first = firsts[h];
        let waits = one_higher(reported.lowest_wait(first));
        tasks[h] = waiting_for(resting(first), waits).task;
    }
    tasks
}

// Every head resting with its task. The loop only stores whole heads, so that the compiler cuts the array into pieces of a
// register's size and a grant copies it fast (docs/DECISIONS.md, "Heads by value, and speed").
pub fn resting_heads(tasks: [Task; MOST_HEADS]) -> Heads
    ensures { result ≡ map at_rest tasks }
{
    let first = resting(0);
    let mut heads = [first; MOST_HEADS];
    for h in 0..MOST_HEADS {
        heads[h] = Head {
            task: tasks[h],
            ..first
        };
    }
    heads
}

// The work mask of the heads: a bit for each that has a first request.
#[tactic(auto, using(crate::proofs::Loops::gathered_small))]
pub fn first_mask(firsts: [u16; MOST_HEADS], requests: u32) -> u32
    ensures { result ≡ mask_of (map (is_request requests) firsts) }
{
    let mut mask: u32 = 0;
    for h in (0..MOST_HEADS).rev() {
        mask = mask::pushed(mask, u32::from(firsts[h]) < requests);
    }
    mask
}
