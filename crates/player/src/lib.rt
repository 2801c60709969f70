// The player: it checks a job file and the lent buffers, and then plays the file's grants on them.
#![tactic(auto)]

ghost use Rattle.std.specs.Prelude.{IfOk, ◌≡◌, ◌*◌, ◌≤◌, length};
ghost use Rattle.std.specs.declared.result.Result.TheVariants.{Ok};
ghost use Rattle.job.specs.Refusal.{told};
ghost use Rattle.job.specs.Played.{played_told};
ghost use Rattle.turns.specs.Turns.{buffers_of};
ghost use Rattle.player.specs.Player.{left, play_refusal, played_of, Roomy};
ghost use Rattle.player.specs.Parts.{laid_of, TurnableOn, TurnsOn, closed_of};
ghost use Rattle.player.specs.Demand.{LinearizedHere, LawfulHere, WaitedHere, BoundedHere};

use job::{Play, Refusal, Tally};
use reader::{Accepted, Checked};
use start::{
    INDEX_ROOM, clear_report, first_mask, first_requests, first_tasks, fresh_table, index_requests,
    resting_heads,
};
use stepper::Indexed;
use turns::{Progress, counted, first_progress, first_tally, turn};
use word::Word;

// The job of a file, where lent buffers of these lengths are long enough for it: checked before anything is written, the file
// first, then the buffers in their order.
#[tactic(auto, using(crate::proofs::Refusals::room_of), unfolding(crate::specs::Player::play_refusal, crate::specs::Player::lent_refusal))]
pub fn admission(
    file: &[u8],
    table: usize,
    report: usize,
    linearization: usize,
) -> Result<Accepted, Refusal>
    ensures told { told result ≡ play_refusal file.now table report linearization }
    ensures same { IfOk result (λ job. job.file.now ≡ file.now) }
    ensures roomy { IfOk result (λ job. Roomy job.file.now job.counts table report linearization) }
{
    let job = Accepted::check(file)?;
    let counts = job.counts;
    if table < counts.nodes as usize {
        return Err(Refusal::Buffer);
    }
    if report < 4 * (counts.requests as usize) {
        return Err(Refusal::Buffer);
    }
    if linearization < 2 * (counts.requests as usize) {
        return Err(Refusal::Buffer);
    }
    Ok(job)
}

// Lays out the start on buffers that are long enough, and answers what the play carries before its first grant; what is past
// the nodes and the requests stays as lent.
pub fn lay_out(job: Accepted, table: &mut [Word], report: &mut [u32]) -> Progress
    requires nodes_in_bounds { job.counts.nodes ≤ length table.old }
    requires requests_in_bounds { 4 * job.counts.requests ≤ length report.old }
    ensures { record { table = table.new; report = report.new; progress = result }
        ≡ laid_of job.entry.file.now table.old report.old }
{
    let counts = job.counts;
    let nodes = counts.nodes as usize;
    let rows = 4 * (counts.requests as usize);
    fresh_table(&mut table[..nodes]);
    clear_report(&mut report[..rows]);
    let firsts = first_requests(job);
    let tasks = first_tasks(job, &report[..rows], firsts);
    let heads = resting_heads(tasks);
    let mask = first_mask(firsts, counts.requests);
    first_progress(heads, mask)
}

// One grant on the parts of the lent buffers that the job needs.
pub fn turn_on(
    indexed: Indexed,
    progress: Progress,
    table: &mut [Word],
    report: &mut [u32],
    linearization: &mut [u32],
) -> Progress
    requires { TurnableOn indexed.job.file.now indexed.job.counts progress table.old report.old linearization.old }
    ensures { TurnsOn indexed.entry.job.file.now indexed.entry.job.counts progress result
        (buffers_of progress table.old report.old linearization.old)
        (buffers_of result table.new report.new linearization.new) }
{
    let counts = indexed.job.counts;
    let nodes = counts.nodes as usize;
    let rows = 4 * (counts.requests as usize);
    turn(
        indexed,
        progress,
        &mut table[..nodes],
        &mut report[..rows],
        linearization,
    )
}

// What a play of an accepted job answers.
pub fn closed(counts: Checked, progress: Progress, tally: Tally) -> Play
    ensures { played_told (Ok result) ≡ closed_of counts progress tally }
{
    Play {
        nodes: counts.nodes,
        heads: counts.heads,
        requests: counts.requests,
        grants: counts.grants,
        entries: progress.entries,
        tally,
    }
}

// Plays a job file: any bytes, on any lent buffers.
pub fn play(
    file: &[u8],
    table: &mut [Word],
    report: &mut [u32],
    linearization: &mut [u32],
) -> Result<Play, Refusal>
    ensures exact { left table.new report.new linearization.new (played_told result)
        ≡ played_of file.now table.old report.old linearization.old }
    ensures linearized { (played_told result).number ≡ 0
        → LinearizedHere file.now (played_told result) table.new report.new linearization.new }
    ensures lawful { (played_told result).number ≡ 0
        → LawfulHere file.now (played_told result) table.new report.new }
    ensures waited { (played_told result).number ≡ 0
        → WaitedHere file.now (played_told result) report.new linearization.new }
    ensures bounded { (played_told result).number ≡ 0
        → BoundedHere file.now (played_told result) report.new }
{
    let job = admission(file, table.len(), report.len(), linearization.len())?;
    let counts = job.counts;
    let mut progress = lay_out(job, table, report);
    let mut index = [0u16; INDEX_ROOM];
    index_requests(job, &mut index);
    let indexed = Indexed {
        job,
        successors: &index,
    };
    let mut tally = first_tally(progress);
    for _granted in 0..counts.grants {
        progress = turn_on(indexed, progress, table, report, linearization);
        tally = counted(tally, progress);
    }
    Ok(closed(counts, progress, tally))
}
