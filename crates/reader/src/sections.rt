// The sections of a file in order: the header, the rights (02, A5), the requests, the pairs (02, A3), the runs, the close.
// Each is read to its end, or to the first refusal.
ghost use Rattle.std.specs.Prelude.{◌≡◌, ◌≤◌, length, drop};
ghost use Rattle.jobfile.specs.Format.{wait_mark, run_mark, job_size, wait_size, run_size, most_bytes, ◌then◌};
ghost use Rattle.jobfile.specs.Meaning.{records, header_refusal, missing_refusal, right_records, rights_in, requests_start};
ghost use Rattle.jobfile.specs.Meaning.{request_records};
ghost use Rattle.jobfile.specs.Meaning.{close_refusal, balance_refusal};
ghost use Rattle.job.specs.Refusal.{told};
ghost use Rattle.records.specs.Records.{Righted};
ghost use Rattle.reader.specs.Reader.{right_section_of, request_section_of, wait_section_of, run_section_of, section_told};
ghost use Rattle.reader.specs.Reader.{run_section_told};

use fields::bytes::{sum_words, word_at};
use fields::{check_sizes, right_place};
use job::{Refusal, Wait};
use jobfile::{
    CLOSE_MARK, CLOSE_SIZE, JOB_MARK, JOB_SIZE, REQUEST_MARK, REQUEST_SIZE, RIGHT_MARK, RIGHT_SIZE,
    RUN_MARK, RUN_SIZE, Run, WAIT_MARK, WAIT_SIZE,
};
use records::{
    check_request, check_right_record, check_run, check_wait, is_record, run_here, wait_here,
};

// The runs of a file: how many there are and what they grant.
#[derive(Clone, Copy, Debug, PartialEq, Eq)]
pub struct Runs {
    pub count: u32,
    pub grants: u32,
}

// Checks the header.
#[tactic(auto, unfolding(jobfile::specs::Meaning::header_refusal))]
pub fn check_header(file: &[u8]) -> Result<(), Refusal>
    ensures { told result ≡ header_refusal file.now }
{
    if file.len() < 2 {
        return Err(Refusal::FileEndsEarly);
    }
    if word_at(file, 0) != JOB_MARK {
        return Err(Refusal::Mark);
    }
    if file.len() < JOB_SIZE {
        return Err(Refusal::FileEndsEarly);
    }
    check_sizes(u32::from(word_at(file, 2)), u32::from(word_at(file, 4)))
}

// Checks that no right is missing at a place behind so many of them: once begun, there is one a head.
#[tactic(auto, unfolding(jobfile::specs::Meaning::missing_refusal))]
fn check_missing(file: &[u8], at: usize, heads: u32, count: u32) -> Result<(), Refusal>
    requires { at ≤ length file.now }
    ensures { told result ≡ missing_refusal heads count (drop at file.now) }
{
    if count == 0 || heads <= count {
        return Ok(());
    }
    if file.len() - at < 2 {
        return Err(Refusal::FileEndsEarly);
    }
    Err(Refusal::Mark)
}

// The four loops stay apart, and are no `for`: a record's mark goes on, a turn is a record, and each loop ends in a way of its own.

// Reads the rights behind the first record.
#[tactic(auto, using(crate::proofs::Loops::rights_ends))]
pub fn read_rights(file: &[u8], heads: u32) -> Result<u32, Refusal>
    requires job_size_in_bounds { job_size ≤ length file.now }
    requires file_len_bound { length file.now ≤ most_bytes }
    ensures { section_told result ≡ right_section_of heads (right_records file.now)
        (drop (requests_start file.now) file.now) }
{
    let mut at = JOB_SIZE;
    let mut count: u32 = 0;
    while word_at(file, at) == RIGHT_MARK {
        check_right_record(file, at, heads, count)?;
        at += RIGHT_SIZE;
        count += 1;
    }
    check_missing(file, at, heads, count)?;
    Ok(count)
}

// Reads the requests behind so many rights.
pub fn read_requests(file: &[u8], nodes: u32, heads: u32, rights: u32) -> Result<u32, Refusal>
    requires righted { Righted file.now rights }
    requires file_len_bound { length file.now ≤ most_bytes }
    ensures { section_told result ≡ request_section_of nodes heads (rights_in file.now) (request_records file.now) }
{
    let mut at = right_place(rights);
    let mut count: u32 = 0;
    while word_at(file, at) == REQUEST_MARK {
        check_request(file, at, nodes, heads, rights, count)?;
        at += REQUEST_SIZE;
        count += 1;
    }
    Ok(count)
}

// Reads the pairs from where they start, behind so many requests.
pub fn read_waits(file: &[u8], requests: u32, start: usize) -> Result<u32, Refusal>
    requires start_in_bounds { start ≤ length file.now }
    requires file_len_bound { length file.now ≤ most_bytes }
    ensures { section_told result ≡ wait_section_of requests (records wait_size wait_mark (drop start file.now)) }
{
    let mut at = start;
    let mut before = Wait {
        later: 0,
        earlier: 0,
    };
    let mut count: u32 = 0;
    while is_record(file, at, WAIT_SIZE, WAIT_MARK) {
        check_wait(file, at, requests, before)?;
        before = wait_here(file, at);
        at += WAIT_SIZE;
        count += 1;
    }
    if word_at(file, at) == WAIT_MARK {
        return Err(Refusal::FileEndsEarly);
    }
    Ok(count)
}

// Reads the runs from where they start.
pub fn read_runs(file: &[u8], heads: u32, start: usize) -> Result<Runs, Refusal>
    requires start_in_bounds { start ≤ length file.now }
    requires file_len_bound { length file.now ≤ most_bytes }
    ensures { run_section_told result ≡ run_section_of heads (records run_size run_mark (drop start file.now)) }
{
    let mut at = start;
    let mut before = Run {
        head: 0,
        count: 255,
    };
    let mut grants: u32 = 0;
    while is_record(file, at, RUN_SIZE, RUN_MARK) {
        check_run(file, at, heads, before)?;
        before = run_here(file, at);
        at += RUN_SIZE;
        grants += u32::from(before.count);
    }
    if word_at(file, at) == RUN_MARK {
        return Err(Refusal::FileEndsEarly);
    }
    Ok(Runs {
        count: ((at - start) / RUN_SIZE) as u32,
        grants,
    })
}

// Checks what stands behind the runs: the close, then the balance of the whole file.
#[tactic(auto, unfolding(jobfile::specs::Meaning::close_refusal, jobfile::specs::Meaning::balance_refusal))]
pub fn check_close(file: &[u8], at: usize) -> Result<(), Refusal>
    requires at_in_bounds { at ≤ length file.now }
    requires file_len_bound { length file.now ≤ most_bytes }
    ensures { told result ≡ (close_refusal (drop at file.now) then balance_refusal file.now) }
{
    let left = file.len() - at;
    if left < 2 {
        return Err(Refusal::FileEndsEarly);
    }
    if word_at(file, at) != CLOSE_MARK {
        return Err(Refusal::Mark);
    }
    if left < CLOSE_SIZE {
        return Err(Refusal::FileEndsEarly);
    }
    if CLOSE_SIZE < left {
        return Err(Refusal::AfterClose);
    }
    if sum_words(file) != 0 {
        return Err(Refusal::Balance);
    }
    Ok(())
}
