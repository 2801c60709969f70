// The stages of a union after its two finds: both ranks, the link, the rise of the upper root's rank, and the rise of the root
// that the find after the link has come to (02, A2).
ghost use Rattle.std.specs.Prelude.{◌≡◌};
ghost use Rattle.word.specs.Word.{same};
ghost use Rattle.process.specs.Process.{tidy_up};
ghost use Rattle.process.specs.Advance.{rank_both, after_link, link, linked, tried, raise, raise_found};

use crate::finding::{go_on, retry};
use crate::{Advanced, Errand, Event, Head, QUIET, Stage, Step, Task};
use job::Answer;
use word::Node;

// Both ranks are known: the node that comes first is to be linked below the other.
pub fn rank_both(task: Task, x_rank: u8, y_rank: u8) -> Advanced
    ensures { result ≡ rank_both task x_rank y_rank }
{
    let equal = x_rank == y_rank;
    if word::comes_before(y_rank, task.y, x_rank, task.x) {
        let exchanged = Task {
            x: task.y,
            y: task.x,
            ..task
        };
        return go_on(exchanged, Stage::Link(y_rank, equal));
    }
    go_on(task, Stage::Link(x_rank, equal))
}

// The link was tried: failed, the union tries again; written, it has linked.
pub fn link(task: Task, rank: u8, equal: bool, seen: Node, now: u32) -> Advanced
    ensures { result ≡ link task rank equal seen now }
{
    let expected = Node {
        rank,
        parent: task.x,
    };
    if word::is_same(seen, expected) {
        return linked(task, rank, equal, now);
    }
    retry(task, Stage::Find(Errand::UnionX, Step::ReadNode))
}

// A union that has linked x below y makes a find from x: y is where it stands, x stays.
fn tidy_up(task: Task) -> Head
    ensures { result ≡ tidy_up task }
{
    Head {
        stage: Stage::Find(Errand::Tidy, Step::ReadNode),
        task: Task { y: task.x, ..task },
    }
}

// The head after its link: it raises y's rank if the ranks were equal.
fn after_link(task: Task, rank: u8, equal: bool) -> Head
    ensures { result ≡ after_link task rank equal }
{
    if equal {
        return Head {
            stage: Stage::Raise(rank),
            task,
        };
    }
    tidy_up(task)
}

// The link was written at grant now.
fn linked(task: Task, rank: u8, equal: bool, now: u32) -> Advanced
    ensures { result ≡ linked task rank equal now }
{
    Advanced {
        head: after_link(task, rank, equal),
        event: Event {
            linked: true,
            point: now,
            ..QUIET
        },
    }
}

// A rank swap was tried.
fn tried(head: Head, answer: Answer, wrote: bool) -> Advanced
    ensures { result ≡ tried head answer wrote }
{
    Advanced {
        head,
        event: Event {
            failed: !wrote,
            answer,
            ..QUIET
        },
    }
}

// Whether a swap that was to raise the rank of y found it as it was when its rank was read, a root of that rank.
fn has_raised(task: Task, rank: u8, seen: Node) -> bool
    ensures { result ≡ same seen (record { rank = rank; parent = task.y }) }
{
    let expected = Node {
        rank,
        parent: task.y,
    };
    word::is_same(seen, expected)
}

// The rank swap after the link was tried once: written or not, the union tidies up.
pub fn raise(task: Task, rank: u8, seen: Node) -> Advanced
    ensures { result ≡ raise task rank seen }
{
    let wrote = has_raised(task, rank, seen);
    tried(tidy_up(task), Answer::Unfinished, wrote)
}

// The last rank swap was tried once: written or not, the union has joined.
pub fn raise_found(task: Task, rank: u8, seen: Node) -> Advanced
    ensures { result ≡ raise_found task rank seen }
{
    let wrote = has_raised(task, rank, seen);
    let head = Head {
        stage: Stage::Resting,
        task,
    };
    tried(head, Answer::Joined, wrote)
}
