// One grant on the lent buffers: the head's access to the table, and what it leaves in report and linearization.
#![tactic(auto)]

mod buffers;
mod heads;
pub mod requests;
pub mod waits;

ghost use Rattle.std.specs.Prelude.{◌≡◌, true, false, cond, ◌-◌, ◌/◌, ◌%◌, ◌^◌, ◌≤◌, ◌<◌, eqb, ltb};
ghost use Rattle.stepper.specs.Shown.{buffers, idle_done, used_done, Grantable, Grants};
ghost use Rattle.stepper.specs.Halves.{AlikeOutside};

use crate::buffers::{charge_row, enter};
use crate::heads::{ready_head, settled_head};
use crate::waits::{Reported, frees};
use job::MOST_HEADS;
use process::{Event, Head};
pub use requests::Indexed;
use word::Word;

// What a grant takes and leaves by value: the heads of every play. Those that a job does not have get no request and no grant.
pub type Heads = [Head; MOST_HEADS];

// A half of the heads: as many as the machine has vector registers.
const HALF: usize = 16;

// What a grant adds to the tally: an idle grant, a swap that did not write, a link. Flags and no cases: as cases an idle grant
// takes more than twice as long (docs/DECISIONS.md, "Heads by value, and speed").
#[derive(Clone, Copy, Debug, PartialEq, Eq)]
pub struct Done {
    pub idle: bool,
    pub failed: bool,
    pub linked: bool,
}

// What a grant leaves beside the lent buffers: the heads, the number of entries, the work mask, and what it was.
#[derive(Clone, Copy, Debug, PartialEq, Eq)]
pub struct Granted {
    pub heads: Heads,
    pub entries: u32,
    pub mask: u32,
    pub done: Done,
}

// The work mask after head h has moved on to request `next`: its bit is cleared where there is none.
fn work_left(mask: u32, h: u32, next: u16, requests: u32) -> u32
    requires h_bound { h < 32 }
    requires bit_in_mask { 2 ^ h ≤ mask }
    ensures { result ≡ cond (ltb next requests) mask (mask - 2 ^ h) }
{
    if u32::from(next) < requests {
        return mask;
    }
    mask::cleared(mask, h)
}

// What a grant leaves that serves nobody: everything as it is.
fn idled(heads: Heads, entries: u32, mask: u32) -> Granted
    ensures { result ≡ record { heads = heads; entries = entries; mask = mask; done = idle_done } }
{
    Granted {
        heads,
        entries,
        mask,
        done: Done {
            idle: true,
            failed: false,
            linked: false,
        },
    }
}

// What a grant leaves that was used for a request.
fn used(heads: Heads, entries: u32, mask: u32, event: Event) -> Granted
    ensures { result ≡ record { heads = heads; entries = entries; mask = mask; done = used_done event } }
{
    Granted {
        heads,
        entries,
        mask,
        done: Done {
            idle: false,
            failed: event.failed,
            linked: event.linked,
        },
    }
}

// The heads after a grant that moved one of the half that begins there: the other half is as it was before, and need not be
// copied (docs/DECISIONS.md, "Heads by value, and speed").
fn half_moved(before: Heads, after: Heads, first: usize) -> Heads
    requires { AlikeOutside first before after }
    ensures { result ≡ after }
{
    let mut heads = before;
    for k in first..first + HALF {
        heads[k] = after[k];
    }
    heads
}

// A grant to head h, which has work left: one access, and what it leaves; or nothing, where the head waits, which the record
// tells that is read anyway. The loop over the records stands here, and so does the choice of a half, because the array keeps
// to its registers only so (docs/DECISIONS.md, "Heads by value, and speed").
fn serve(
    indexed: Indexed,
    before: Heads,
    h: u32,
    number: u32,
    table: &mut [Word],
    report: &mut [u32],
    linearization: &mut [u32],
    entries: u32,
    mask: u32,
) -> Granted
    requires grantable { Grantable indexed.job.file.now indexed.job.counts h number
        (buffers before table.old report.old linearization.old entries mask) }
    requires bit_set { eqb (mask / 2 ^ h % 2) 1 ≡ true }
    ensures { Grants indexed.entry.job.file.now h number
        (buffers before table.old report.old linearization.old entries mask)
        (buffers result.heads table.new report.new linearization.new result.entries result.mask) result.done }
{
    let job = indexed.job;
    let mut heads = before;
    let at = h as usize;
    let found = heads[at];
    if process::is_waiting(found) {
        return idled(before, entries, mask);
    }
    let head = ready_head(job, found);
    let moved = table::stepped(table, head, number);
    let event = moved.event;
    let answer = event.answer;
    let next = settled_head(indexed, h, moved);
    heads[at] = next;
    let task = head.task;
    charge_row(report, task.request, number, answer);
    let listed = enter(linearization, entries, event.point, u32::from(task.request));
    let work = work_left(mask, h, next.task.request, job.counts.requests);
    if !frees(job.counts, answer) {
        if at < HALF {
            return used(half_moved(before, heads, 0), listed, work, event);
        }
        return used(half_moved(before, heads, HALF), listed, work, event);
    }
    let reported = Reported { job, report };
    for k in 0..MOST_HEADS {
        heads[k] = reported.renewed_head(heads[k], k as u32, h, task.request);
    }
    used(heads, listed, work, event)
}

// One grant for head h, the grant of that number, on the buffers of an accepted file that show a state of the rules: they
// then show the state after the rules' step. The mask is tested before the heads are touched, so that an idle grant is cheap.
pub fn grant(
    indexed: Indexed,
    heads: Heads,
    h: u32,
    number: u32,
    table: &mut [Word],
    report: &mut [u32],
    linearization: &mut [u32],
    entries: u32,
    mask: u32,
) -> Granted
    requires { Grantable indexed.job.file.now indexed.job.counts h number
        (buffers heads table.old report.old linearization.old entries mask) }
    ensures { Grants indexed.entry.job.file.now h number
        (buffers heads table.old report.old linearization.old entries mask)
        (buffers result.heads table.new report.new linearization.new result.entries result.mask) result.done }
{
    if mask::is_set(mask, h) {
        return serve(
            indexed,
            heads,
            h,
            number,
            table,
            report,
            linearization,
            entries,
            mask,
        );
    }
    idled(heads, entries, mask)
}
