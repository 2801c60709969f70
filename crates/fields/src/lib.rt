// What the reader and the writer of job files share: words, places, and the checks on a job's sizes and on a right, the numbers
// of a request, a pair and a run.
#![tactic(auto)]

pub mod bytes;

ghost use Rattle.std.specs.Prelude.{◌≡◌, ◌^◌, nat_le};
ghost use Rattle.job.specs.Job.{may_ask};
ghost use Rattle.job.specs.Refusal.{told};
ghost use Rattle.jobfile.specs.Format.{right_place, request_place, wait_place, run_place, sizes_refusal, right_refusal, fields_refusal};
ghost use Rattle.jobfile.specs.Format.{kind_refusal, rises_to, pair_refusal, extends};

use job::{Kind, MOST_HEADS, MOST_NODES, Refusal, Right, Wait};
use jobfile::{Fields, JOB_SIZE, REQUEST_SIZE, RIGHT_SIZE, RUN_SIZE, Run, WAIT_SIZE};

// Where right number `index` stands; behind the last right stand the requests.
pub fn right_place(index: u32) -> usize
    ensures { result ≡ right_place index }
{
    JOB_SIZE + RIGHT_SIZE * (index as usize)
}

// Where request q stands behind that many rights; behind the last request stand the pairs.
pub fn request_place(rights: u32, q: u32) -> usize
    ensures { result ≡ request_place rights q }
{
    right_place(rights) + REQUEST_SIZE * (q as usize)
}

// Where pair number `index` stands behind that many rights and requests; behind the last pair stand the runs.
pub fn wait_place(rights: u32, requests: u32, index: u32) -> usize
    ensures { result ≡ wait_place rights requests index }
{
    request_place(rights, requests) + WAIT_SIZE * (index as usize)
}

// Where run number `index` stands behind that many rights, requests and pairs; behind the last run stands the close.
pub fn run_place(rights: u32, requests: u32, waits: u32, index: u32) -> usize
    ensures { result ≡ run_place rights requests waits index }
{
    wait_place(rights, requests, waits) + RUN_SIZE * (index as usize)
}

// Checks the number of nodes, then that of heads.
#[tactic(auto, unfolding(jobfile::specs::Format::sizes_refusal))]
pub fn check_sizes(nodes: u32, heads: u32) -> Result<(), Refusal>
    ensures { told result ≡ sizes_refusal nodes heads }
{
    if nodes == 0 || MOST_NODES < nodes as usize {
        return Err(Refusal::Places);
    }
    if heads == 0 || MOST_HEADS < heads as usize {
        return Err(Refusal::Heads);
    }
    Ok(())
}

// Whether a mask has a bit that stands for no head, in a job of that many heads.
fn has_stray_bit(heads: u32, sight: u32) -> bool
    ensures { result ≡ nat_le (2 ^ heads) sight }
{
    heads < 32 && 1u32 << heads <= sight
}

// Checks right number `number` in a job of that many heads (02, A5).
#[tactic(auto, unfolding(jobfile::specs::Format::right_refusal))]
pub fn check_right(heads: u32, number: u32, right: Right) -> Result<(), Refusal>
    ensures { told result ≡ right_refusal heads number right }
{
    if right.head != number
        || right.rights == 0
        || 3 < right.rights
        || has_stray_bit(heads, right.sight)
    {
        return Err(Refusal::Rights);
    }
    Ok(())
}

// Checks a request's numbers, in the order of the fields.
#[tactic(auto, unfolding(jobfile::specs::Format::fields_refusal))]
pub fn check_fields(nodes: u32, heads: u32, fields: Fields) -> Result<(), Refusal>
    ensures { told result ≡ fields_refusal nodes heads fields }
{
    if heads <= fields.head {
        return Err(Refusal::RequestHead);
    }
    Kind::try_from(fields.kind)?;
    if nodes <= fields.x || nodes <= fields.y {
        return Err(Refusal::RequestPlace);
    }
    Ok(())
}

// Whether rights have the kind of a request among them.
fn may_ask(rights: u32, kind: Kind) -> bool
    ensures { result ≡ may_ask rights kind }
{
    match kind {
        Kind::Union => rights == 1 || rights == 3,
        Kind::SameSet => rights == 2 || rights == 3,
    }
}

// Checks that rights have a request's kind among them (02, A5).
#[tactic(auto, unfolding(jobfile::specs::Format::kind_refusal))]
pub fn check_kind(rights: u32, kind: u32) -> Result<(), Refusal>
    ensures { told result ≡ kind_refusal rights kind }
{
    // any number but 1 stands for a same-set here: `check_fields` refuses those that are not admitted
    let kind = Kind::try_from(kind).unwrap_or(Kind::SameSet);
    if !may_ask(rights, kind) {
        return Err(Refusal::RequestRights);
    }
    Ok(())
}

// Whether a pair comes strictly after the pair before it: by the later request, then by the earlier one.
pub fn does_rise(before: Wait, wait: Wait) -> bool
    ensures { result ≡ rises_to before wait }
{
    before < wait
}

// Checks a pair in a job of that many requests, behind the pair before it.
#[tactic(auto, unfolding(jobfile::specs::Format::pair_refusal))]
pub fn check_pair(count: u32, before: Wait, wait: Wait) -> Result<(), Refusal>
    ensures { told result ≡ pair_refusal count before wait }
{
    if wait.later <= wait.earlier
        || count <= wait.later
        || count <= wait.earlier
        || !does_rise(before, wait)
    {
        return Err(Refusal::Wait);
    }
    Ok(())
}

// Whether one more grant for this head belongs to the run before it.
pub fn does_extend(run: Run, head: u8) -> bool
    ensures { result ≡ extends run head }
{
    run.head == head && run.count < 255
}
