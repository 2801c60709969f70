// What a job asks for and what playing it leaves: kinds, answers, requests, pairs, rights, counters and the summary of a play.
#![tactic(auto)]

mod refusal;

ghost use Rattle.std.specs.Prelude.{◌≡◌};
ghost use Rattle.job.specs.Job.{answer_number, every_right};
ghost use Rattle.job.specs.Kinds.{kind_read};
ghost use Rattle.job.specs.Played.{played_told};

pub use refusal::Refusal;

// The most nodes of a job and of a table (document 01: places).
pub const MOST_NODES: usize = 4096;

// The most heads of a job (02, A4).
pub const MOST_HEADS: usize = 32;

// The most requests of a job.
pub const MOST_REQUESTS: usize = 512;

// What a request asks (document 01: kind): in a file 1 is a union, 2 a same-set, and other numbers are no kind.
#[derive(Clone, Copy, Debug, PartialEq, Eq)]
pub enum Kind {
    Union,
    SameSet,
}

impl TryFrom<u32> for Kind {
    type Error = Refusal;

    ghost try_from_gives = { λ number answer. answer ≡ kind_read number };

    fn try_from(number: u32) -> Result<Kind, Refusal> {
        match number {
            1 => Ok(Kind::Union),
            2 => Ok(Kind::SameSet),
            _ => Err(Refusal::RequestKind),
        }
    }
}

// What a request was told (document 01: answer); `Unfinished` until its last grant.
#[derive(Clone, Copy, Debug, PartialEq, Eq)]
pub enum Answer {
    Unfinished,
    Joined,
    Together,
    Yes,
    No,
}

// One request as the job has it: the head that serves it, its kind and its two nodes (document 01: places).
#[derive(Clone, Copy, Debug, PartialEq, Eq)]
pub struct Request {
    pub head: u8,
    pub kind: Kind,
    pub x: u16,
    pub y: u16,
}

// A pair of requests by their numbers (02, A3): the later one waits until the earlier one is finished. Pairs are in the order of
// their later requests, and of their earlier ones where these are the same.
#[derive(Clone, Copy, Debug, PartialEq, Eq, PartialOrd, Ord)]
pub struct Wait {
    pub later: u32,
    pub earlier: u32,
}

// What a head may ask (1 unions, 2 same-sets, 3 both), and the mask of the heads whose requests it may see (02, A5).
#[derive(Clone, Copy, Debug, PartialEq, Eq)]
pub struct Right {
    pub head: u32,
    pub rights: u32,
    pub sight: u32,
}

// The counters of a play (document 01: tally): idle grants, failed swaps, links, and the heads with work left.
#[repr(C)]
#[derive(Clone, Copy, Debug, PartialEq, Eq)]
pub struct Tally {
    pub idle: u32,
    pub failed: u32,
    pub links: u32,
    pub working: u32,
}

// What a play of an accepted job answers: its counts.
#[derive(Clone, Copy, Debug, PartialEq, Eq)]
pub struct Play {
    pub nodes: u32,
    pub heads: u32,
    pub requests: u32,
    pub grants: u32,
    pub entries: u32,
    pub tally: Tally,
}

// What a host is told of a play: 0 and its counts, or a refusal's number and zero for every count.
#[repr(C)]
#[derive(Clone, Copy, Debug, PartialEq, Eq)]
pub struct Played {
    pub number: u32,
    pub nodes: u32,
    pub heads: u32,
    pub requests: u32,
    pub grants: u32,
    pub entries: u32,
    pub tally: Tally,
}

impl From<Result<Play, Refusal>> for Played {
    ghost from_gives = { λ answer played. played ≡ played_told answer };

    fn from(answer: Result<Play, Refusal>) -> Played {
        match answer {
            Ok(play) => Played {
                number: 0,
                nodes: play.nodes,
                heads: play.heads,
                requests: play.requests,
                grants: play.grants,
                entries: play.entries,
                tally: play.tally,
            },
            Err(refusal) => Played {
                number: u32::from(refusal),
                nodes: 0,
                heads: 0,
                requests: 0,
                grants: 0,
                entries: 0,
                tally: Tally {
                    idle: 0,
                    failed: 0,
                    links: 0,
                    working: 0,
                },
            },
        }
    }
}

// The number that the report has for an answer.
impl From<Answer> for u32 {
    ghost from_gives = { λ answer number. number ≡ answer_number answer };

    fn from(answer: Answer) -> u32 {
        match answer {
            Answer::Unfinished => 0,
            Answer::Joined => 1,
            Answer::Together => 2,
            Answer::Yes => 3,
            Answer::No => 4,
        }
    }
}

// Every right, and sight of every head: what a head has in a job without such records (02, A5).
pub fn every_right(head: u32) -> Right
    ensures { result ≡ every_right head }
{
    Right {
        head,
        rights: 3,
        sight: u32::MAX,
    }
}
