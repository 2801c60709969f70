// One process: the record of a head, a find by halving as a machine of its own, and what a request makes of its finds.
#![tactic(auto)]

pub mod finding;
pub mod joining;

ghost use Rattle.std.specs.Prelude.{◌≡◌, ◌<◌};
ghost use Rattle.process.specs.Process.{begin, is_resting, is_waiting, one_higher, waiting_for, first_errand};

use job::{Answer, Kind, Request};
use word::Node;

// A find by halving, on a node that it is given: the word that it touches next. The numbers are the rank and the parent t
// of the word first read, and t's parent u.
#[derive(Clone, Copy, Debug, PartialEq, Eq)]
pub enum Step {
    ReadNode,
    ReadParent(u8, u16),
    Halve(u8, u16, u16),
    ReadAgain(u16),
}

// What a find is made for: a union or a same-set, and the first or the second of its nodes; or a union that has linked, from
// the node that it linked (02, A2). The finds for the first node come first, so that one comparison tells them.
#[derive(Clone, Copy, Debug, PartialEq, Eq)]
pub enum Errand {
    UnionX,
    SameX,
    UnionY,
    SameY,
    Tidy,
}

// What a head is doing (document 01: a choice of cases inside its record). The cases fill eight bytes.
#[derive(Clone, Copy, Debug, PartialEq, Eq)]
pub enum Stage {
    Resting,
    Find(Errand, Step),
    RereadX(u32),
    ReadRankX,
    ReadRankY(u8),
    Link(u8, bool),
    Raise(u8),
    ReadRankLinked,
    RaiseFound(u8),
}

// What a head is doing it for: its current x and y, the request that it serves, or its next one while it rests, and the
// request that this one waits for, told one higher (02, A3). Its eight bytes and the stage's keep the heads in registers
// during a play.
#[derive(Clone, Copy, Debug, PartialEq, Eq)]
pub struct Task {
    pub x: u16,
    pub y: u16,
    pub request: u16,
    pub waits: u16,
}

// A head's record.
#[derive(Clone, Copy, Debug, PartialEq, Eq)]
pub struct Head {
    pub stage: Stage,
    pub task: Task,
}

// Two registers hold a head.
const _: () = prove!(size_of::<Head>() == 16);

// The one word that a head touches at a grant: a read, or a swap from an expected word to a new one.
#[derive(Clone, Copy, Debug, PartialEq, Eq)]
pub enum Access {
    Idle,
    Load(u16),
    Cas(u16, Node, Node),
}

// What a grant did beyond one more grant used: a swap that did not write, a find from y that ended, a link that was
// written, the answer where the request finished, and the point of a request that took effect (0 for none). Flags and a
// number, and no cases: what may not change speaks of them so (specs/Advance; `entered` of rules/specs/Step, and History).
// As cases an idle grant takes more than twice as long, too (docs/DECISIONS.md, "Heads by value, and speed").
#[derive(Clone, Copy, Debug, PartialEq, Eq)]
pub struct Event {
    pub failed: bool,
    pub found: bool,
    pub linked: bool,
    pub answer: Answer,
    pub point: u32,
}

// Most grants end no find, write no link and give no answer.
const QUIET: Event = Event {
    failed: false,
    found: false,
    linked: false,
    answer: Answer::Unfinished,
    point: 0,
};

// The head after a grant, and what the grant did.
#[derive(Clone, Copy, Debug, PartialEq, Eq)]
pub struct Advanced {
    pub head: Head,
    pub event: Event,
}

// The value of a head's `waits` that names no request.
pub const NO_WAIT: u16 = 0;

// A request starts, and tries again, with the find from x. A function of its own beside `together` and `apart`: each is a match
// of two arms on the kind, with another type of result.
fn first_errand(kind: Kind) -> Errand
    ensures { result ≡ first_errand kind }
{
    match kind {
        Kind::Union => Errand::UnionX,
        Kind::SameSet => Errand::SameX,
    }
}

// The head as it begins a request: the find from x is about to read.
pub fn begin(request: Request, number: u16) -> Head
    ensures { result ≡ begin request number }
{
    Head {
        stage: Stage::Find(first_errand(request.kind), Step::ReadNode),
        task: Task {
            x: request.x,
            y: request.y,
            request: number,
            waits: NO_WAIT,
        },
    }
}

// Whether a head serves no request.
pub fn is_resting(head: Head) -> bool
    ensures { result ≡ is_resting head }
{
    matches!(head.stage, Stage::Resting)
}

// Whether a head waits for a request.
pub fn is_waiting(head: Head) -> bool
    ensures { result ≡ is_waiting head }
{
    head.task.waits != NO_WAIT
}

// The number of a request, or none, as a task holds it in its two bytes: an Option there would make a head more than 16.
pub fn one_higher(waits: Option<u16>) -> u16
    requires fits { one_higher waits < 65536 }
    ensures { result ≡ one_higher waits }
{
    match waits {
        None => NO_WAIT,
        Some(number) => number + 1,
    }
}

// The head with what it waits for changed, as its task holds it.
pub fn waiting_for(head: Head, waits: u16) -> Head
    ensures { result ≡ waiting_for head waits }
{
    Head {
        task: Task { waits, ..head.task },
        ..head
    }
}
