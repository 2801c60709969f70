// One record: the right, the request, the pair or the run at a place of the file, and its check.
// A place stays beside the file: by the rest of the file as a slice a byte is read in 0.92 ns, by its place in 0.51. The bound of
// the file's length stays a clause of the eight functions that need it, here and in `reader`: with a type that has it both crates
// are as long, and 43 times it is `.bytes`.
#![tactic(auto)]

ghost use Rattle.std.specs.Prelude.{◌≡◌, ◌+◌, ◌≤◌, length, drop};
ghost use Rattle.job.specs.Job.{right_of};
ghost use Rattle.job.specs.Refusal.{told};
ghost use Rattle.jobfile.specs.Format.{word, right_size, request_size, wait_size, run_size, most_bytes};
ghost use Rattle.jobfile.specs.Meaning.{right_at, fields_at, request_at, wait_at, run_at, right_record_refusal, rights_in};
ghost use Rattle.jobfile.specs.Meaning.{request_refusal, wait_refusal, run_refusal};
ghost use Rattle.records.specs.Records.{Righted, is_record};

use fields::bytes::{whole_word, word_at};
use fields::{check_fields, check_kind, check_pair, check_right, does_extend, right_place};
use job::{Kind, MOST_REQUESTS, Refusal, Request, Right, Wait, every_right};
use jobfile::{Fields, REQUEST_SIZE, RIGHT_SIZE, RUN_SIZE, Run, WAIT_SIZE};

// The word at the start of a record of that size: with two bytes and more, it is whole, and nothing is tested for it.
fn mark_at(file: &[u8], at: usize, size: usize) -> u16
    requires { at + size ≤ length file.now }
    ensures { result ≡ word (drop at file.now) }
{
    if size < 2 {
        return word_at(file, at);
    }
    whole_word(file, at)
}

// Whether a whole record of that size and mark stands at a place: a loop over such records then needs one test of the length
// for each.
pub fn is_record(file: &[u8], at: usize, size: usize, mark: u16) -> bool
    requires { at ≤ length file.now }
    ensures { result ≡ is_record size mark (drop at file.now) }
{
    size <= file.len() - at && mark_at(file, at, size) == mark
}

// The right at a place (02, A5), whose record is whole.
#[tactic(auto, using(crate::proofs::Fields::right_read))]
fn right_here(file: &[u8], at: usize) -> Right
    requires { at + right_size ≤ length file.now }
    ensures { result ≡ right_at (drop at file.now) }
{
    Right {
        head: u32::from(file[at + 2]),
        rights: u32::from(file[at + 3]),
        sight: u32::from(whole_word(file, at + 4)) + 65536 * u32::from(whole_word(file, at + 6)),
    }
}

// Checks right number `number` at a place: that it is not one more than the heads, the whole record, the fields.
#[tactic(auto, unfolding(jobfile::specs::Meaning::right_record_refusal))]
pub fn check_right_record(file: &[u8], at: usize, heads: u32, number: u32) -> Result<(), Refusal>
    requires { at ≤ length file.now }
    ensures { told result ≡ right_record_refusal heads number (drop at file.now) }
{
    if heads <= number {
        return Err(Refusal::Mark);
    }
    if file.len() - at < RIGHT_SIZE {
        return Err(Refusal::FileEndsEarly);
    }
    check_right(heads, number, right_here(file, at))
}

// The right of a head in a file of so many rights, which are none or one a head.
pub fn right_of(file: &[u8], rights: u32, head: u32) -> Right
    requires { Righted file.now rights }
    ensures { result ≡ right_of (rights_in file.now) head }
{
    if rights <= head {
        return every_right(head);
    }
    right_here(file, right_place(head))
}

// The numbers of the request at a place, whose record is whole.
#[tactic(auto, using(crate::proofs::Fields::fields_read))]
fn fields_here(file: &[u8], at: usize) -> Fields
    requires { at + request_size ≤ length file.now }
    ensures { result ≡ fields_at (drop at file.now) }
{
    Fields {
        head: u32::from(file[at + 2]),
        kind: u32::from(file[at + 3]),
        x: u32::from(whole_word(file, at + 4)),
        y: u32::from(whole_word(file, at + 6)),
    }
}

// The request at a place.
pub fn request_here(file: &[u8], at: usize) -> Request
    requires { at + request_size ≤ length file.now }
    ensures { result ≡ request_at (drop at file.now) }
{
    let fields = fields_here(file, at);
    Request {
        head: fields.head as u8,
        // of an admitted request; any number but 1 stands for a same-set here
        kind: Kind::try_from(fields.kind).unwrap_or(Kind::SameSet),
        x: fields.x as u16,
        y: fields.y as u16,
    }
}

// Checks request number `number` at a place, behind so many rights: the whole record, the count, the fields, and what
// its head may ask.
#[tactic(auto, unfolding(jobfile::specs::Meaning::request_refusal))]
pub fn check_request(
    file: &[u8],
    at: usize,
    nodes: u32,
    heads: u32,
    rights: u32,
    number: u32,
) -> Result<(), Refusal>
    requires at_in_bounds { at ≤ length file.now }
    requires file_len_bound { length file.now ≤ most_bytes }
    requires righted { Righted file.now rights }
    ensures { told result ≡ request_refusal nodes heads (rights_in file.now) number (drop at file.now) }
{
    if file.len() - at < REQUEST_SIZE {
        return Err(Refusal::FileEndsEarly);
    }
    if MOST_REQUESTS <= number as usize {
        return Err(Refusal::TooManyRequests);
    }
    let fields = fields_here(file, at);
    check_fields(nodes, heads, fields)?;
    // tested here, so that files without rights are read as fast as ever
    if rights == 0 {
        return Ok(());
    }
    let right = right_of(file, rights, fields.head);
    check_kind(right.rights, fields.kind)
}

// The pair at a place (02, A3), whose record is whole.
#[tactic(auto, using(crate::proofs::Fields::wait_read))]
pub fn wait_here(file: &[u8], at: usize) -> Wait
    requires { at + wait_size ≤ length file.now }
    ensures { result ≡ wait_at (drop at file.now) }
{
    Wait {
        later: u32::from(whole_word(file, at + 2)),
        earlier: u32::from(whole_word(file, at + 4)),
    }
}

// Checks the pair at a place, behind so many requests and the pair before it: the whole record, the pair.
#[tactic(auto, unfolding(jobfile::specs::Meaning::wait_refusal))]
pub fn check_wait(file: &[u8], at: usize, requests: u32, before: Wait) -> Result<(), Refusal>
    requires { at ≤ length file.now }
    ensures { told result ≡ wait_refusal requests before (drop at file.now) }
{
    if file.len() - at < WAIT_SIZE {
        return Err(Refusal::FileEndsEarly);
    }
    check_pair(requests, before, wait_here(file, at))
}

// The run at a place, whose record is whole.
pub fn run_here(file: &[u8], at: usize) -> Run
    requires { at + run_size ≤ length file.now }
    ensures { result ≡ run_at (drop at file.now) }
{
    Run {
        head: file[at + 2],
        count: file[at + 3],
    }
}

// Checks the run at a place, behind the run before it: the whole record, the head, the count, the run before.
#[tactic(auto, unfolding(jobfile::specs::Meaning::run_refusal))]
pub fn check_run(file: &[u8], at: usize, heads: u32, before: Run) -> Result<(), Refusal>
    requires at_in_bounds { at ≤ length file.now }
    requires file_len_bound { length file.now ≤ most_bytes }
    ensures { told result ≡ run_refusal heads before (drop at file.now) }
{
    if file.len() - at < RUN_SIZE {
        return Err(Refusal::FileEndsEarly);
    }
    let run = run_here(file, at);
    if heads <= u32::from(run.head) || run.count == 0 {
        return Err(Refusal::Grant);
    }
    if does_extend(before, run.head) {
        return Err(Refusal::SplitRun);
    }
    Ok(())
}
