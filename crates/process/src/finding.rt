// A request's finds: what an errand decides, what the request makes of a find's step, and a same-set's last read.
ghost use Rattle.std.specs.Prelude.{◌≡◌, cond};
ghost use Rattle.process.specs.Process.{tidies, kind_of, serves_x, next_errand, node_at, moved_to};
ghost use Rattle.process.specs.Advance.{go_on, retry, together, apart, compared, ended, reread};

use crate::{Advanced, Errand, Event, Head, QUIET, Stage, Step, Task};
use job::{Answer, Kind};
use word::Node;

// The head at its next stage, and whether a swap that did not write has led it there.
fn at_stage(task: Task, stage: Stage, failed: bool) -> Advanced
    ensures { result ≡ cond failed (retry task stage) (go_on task stage) }
{
    Advanced {
        head: Head { stage, task },
        event: Event { failed, ..QUIET },
    }
}

// The head at its next stage, with nothing more to record.
pub fn go_on(task: Task, stage: Stage) -> Advanced
    ensures { result ≡ go_on task stage }
{
    at_stage(task, stage, false)
}

// The head at its next stage after a swap that did not write.
pub fn retry(task: Task, stage: Stage) -> Advanced
    ensures { result ≡ retry task stage }
{
    at_stage(task, stage, true)
}

impl Errand {
    // Whether a find serves the first of its request's nodes.
    fn serves_x(self) -> bool
        ensures { result ≡ serves_x self }
    {
        matches!(self, Errand::UnionX | Errand::SameX)
    }

    // The kind of the request that sends a find.
    fn kind(self) -> Kind
        ensures { result ≡ kind_of self }
    {
        match self {
            Errand::UnionX | Errand::UnionY | Errand::Tidy => Kind::Union,
            Errand::SameX | Errand::SameY => Kind::SameSet,
        }
    }

    // The find that follows.
    fn next(self) -> Errand
        ensures { result ≡ next_errand self }
    {
        match self {
            Errand::UnionX => Errand::UnionY,
            Errand::UnionY => Errand::UnionX,
            Errand::SameX => Errand::SameY,
            Errand::SameY => Errand::SameX,
            Errand::Tidy => Errand::Tidy,
        }
    }

    // Whether a find is made after the link.
    fn tidies(self) -> bool
        ensures { result ≡ tidies self }
    {
        matches!(self, Errand::Tidy)
    }
}

// The node that a find has come to.
pub fn node_at(task: Task, errand: Errand) -> u16
    ensures { result ≡ node_at task errand }
{
    if errand.serves_x() {
        return task.x;
    }
    task.y
}

// The task with another node for the find.
pub fn moved_to(task: Task, errand: Errand, node: u16) -> Task
    ensures { result ≡ moved_to task errand node }
{
    if errand.serves_x() {
        return Task { x: node, ..task };
    }
    Task { y: node, ..task }
}

// The answer of a request whose two finds ended at one root.
fn together(kind: Kind) -> Answer
    ensures { result ≡ together kind }
{
    match kind {
        Kind::Union => Answer::Together,
        Kind::SameSet => Answer::Yes,
    }
}

// The stage of a request whose find from y ended at grant now at another node than x.
fn apart(kind: Kind, now: u32) -> Stage
    ensures { result ≡ apart kind now }
{
    match kind {
        Kind::Union => Stage::ReadRankX,
        Kind::SameSet => Stage::RereadX(now),
    }
}

// The find from y ended: one root, or two nodes.
fn compared(task: Task, kind: Kind, now: u32) -> Advanced
    ensures { result ≡ compared task kind now }
{
    if task.x == task.y {
        return Advanced {
            head: Head {
                stage: Stage::Resting,
                task,
            },
            event: Event {
                found: true,
                answer: together(kind),
                point: now,
                ..QUIET
            },
        };
    }
    Advanced {
        head: Head {
            stage: apart(kind, now),
            task,
        },
        event: Event {
            found: true,
            ..QUIET
        },
    }
}

// A find ended with its node: the find from y follows the find from x, and the read of a rank the find after a link. Tests, and
// no match on the errand: with five places to jump to, mixed jobs take a twentieth longer.
pub fn ended(task: Task, errand: Errand, now: u32) -> Advanced
    ensures { result ≡ ended task errand now }
{
    if errand.serves_x() {
        return go_on(task, Stage::Find(errand.next(), Step::ReadNode));
    }
    if errand.tidies() {
        return go_on(task, Stage::ReadRankLinked);
    }
    compared(task, errand.kind(), now)
}

// x was read again: still a root, the answer is no, at the point where the find from y ended; else the same-set tries again.
pub fn reread(task: Task, point: u32, seen: Node) -> Advanced
    ensures { result ≡ reread task point seen }
{
    if seen.parent == task.x {
        return Advanced {
            head: Head {
                stage: Stage::Resting,
                task,
            },
            event: Event {
                answer: Answer::No,
                point,
                ..QUIET
            },
        };
    }
    go_on(task, Stage::Find(Errand::SameX, Step::ReadNode))
}
