// The grants of an accepted file: a cursor over its runs, one grant a turn, and the tally.
#![tactic(auto)]

ghost use Rattle.std.specs.Prelude.{◌≡◌, ◌<◌};
ghost use Rattle.rules.specs.Step.{plus};
ghost use Rattle.turns.specs.Turns.{Addable, added_of, counted_of, runs_of, opened_of, taken_of, Openable};
ghost use Rattle.turns.specs.Turns.{buffers_of, Turnable, Turns, first_progress, first_tally};

use job::Tally;
use reader::Accepted;
use stepper::{Done, Heads, Indexed, grant};
use word::Word;

// Where a play stands among the runs of the file: the next run, and the head and the grants left of the one under way.
#[derive(Clone, Copy, Debug, PartialEq, Eq)]
pub struct Cursor {
    pub next: u32,
    pub head: u32,
    pub left: u32,
}

// What a play carries from grant to grant beside the lent buffers; `done` is what the last grant was.
#[derive(Clone, Copy, Debug, PartialEq, Eq)]
pub struct Progress {
    pub heads: Heads,
    pub entries: u32,
    pub mask: u32,
    pub number: u32,
    pub cursor: Cursor,
    pub done: Done,
}

// One more where the flag is set.
fn more(number: u32, flag: bool) -> u32
    requires { number < 4294967295 }
    ensures { result ≡ plus flag number }
{
    number + u32::from(flag)
}

// The tally after a grant that was `done`, and left so many heads with work.
pub fn added(tally: Tally, done: Done, working: u32) -> Tally
    requires { Addable tally }
    ensures { result ≡ added_of tally done working }
{
    Tally {
        idle: more(tally.idle, done.idle),
        failed: more(tally.failed, done.failed),
        links: more(tally.links, done.linked),
        working,
    }
}

// The tally after the grant that a progress tells of; its fourth number is the mask's count of ones.
pub fn counted(tally: Tally, progress: Progress) -> Tally
    requires { Addable tally }
    ensures { result ≡ counted_of tally progress.done progress.mask }
{
    added(tally, progress.done, mask::count(progress.mask))
}

// The cursor with a grant left: at the next run where the one under way has none.
fn open_run(job: Accepted, cursor: Cursor) -> Cursor
    requires { Openable (runs_of job.file.now) cursor }
    ensures { result ≡ opened_of (runs_of job.entry.file.now) cursor }
{
    if cursor.left == 0 {
        let run = job.run(cursor.next);
        return Cursor {
            next: cursor.next + 1,
            head: u32::from(run.head),
            left: u32::from(run.count),
        };
    }
    cursor
}

// The cursor after one grant of its run.
fn taken(cursor: Cursor) -> Cursor
    requires { 0 < cursor.left }
    ensures { result ≡ taken_of cursor }
{
    Cursor {
        left: cursor.left - 1,
        ..cursor
    }
}

// One grant: the next of the schedule. The heads get a name each time, since the check of borrows covers no array that goes
// straight from a field into a call or a literal.
pub fn turn(
    indexed: Indexed,
    progress: Progress,
    table: &mut [Word],
    report: &mut [u32],
    linearization: &mut [u32],
) -> Progress
    requires { Turnable indexed.job.file.now indexed.job.counts progress table.old report.old linearization.old }
    ensures { Turns indexed.entry.job.file.now progress result
        (buffers_of progress table.old report.old linearization.old)
        (buffers_of result table.new report.new linearization.new) }
{
    let cursor = open_run(indexed.job, progress.cursor);
    let number = progress.number + 1;
    let heads = progress.heads;
    let granted = grant(
        indexed,
        heads,
        cursor.head,
        number,
        table,
        report,
        linearization,
        progress.entries,
        progress.mask,
    );
    let heads = granted.heads;
    Progress {
        heads,
        entries: granted.entries,
        mask: granted.mask,
        number,
        cursor: taken(cursor),
        done: granted.done,
    }
}

// What a play carries before its first grant.
pub fn first_progress(heads: Heads, mask: u32) -> Progress
    ensures { result ≡ first_progress heads mask }
{
    Progress {
        heads,
        entries: 0,
        mask,
        number: 0,
        cursor: Cursor {
            next: 0,
            head: 0,
            left: 0,
        },
        done: Done {
            idle: false,
            failed: false,
            linked: false,
        },
    }
}

// The tally before the first grant; its fourth number is the mask's count of ones.
pub fn first_tally(progress: Progress) -> Tally
    ensures { result ≡ first_tally progress.mask }
{
    Tally {
        idle: 0,
        failed: 0,
        links: 0,
        working: mask::count(progress.mask),
    }
}
