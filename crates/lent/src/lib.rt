// The play on a tally that its owner lends: every grant adds to the owner's own tally.
#![tactic(auto)]

ghost use Rattle.std.specs.Prelude.{◌≡◌};
ghost use Rattle.job.specs.Played.{played_told};
ghost use Rattle.turns.specs.Turns.{counted_of, buffers_of};
ghost use Rattle.player.specs.Player.{left, played_of};
ghost use Rattle.player.specs.Parts.{TurnableOn, TurnsOn};
ghost use Rattle.player.specs.Demand.{LinearizedHere, LawfulHere, WaitedHere};
ghost use Rattle.lent.specs.Lent.{Addition, tally_left};

use job::{Play, Refusal, Tally};
use player::{admission, closed, lay_out, turn_on};
use reader::Accepted;
use stepper::Indexed;
use turns::{Progress, added, counted, first_tally};
use word::Word;

// One grant without an index: the next request of a head is searched in the file.
fn turn_searching(
    job: Accepted,
    progress: Progress,
    table: &mut [Word],
    report: &mut [u32],
    linearization: &mut [u32],
) -> Progress
    requires { TurnableOn job.file.now job.counts progress table.old report.old linearization.old }
    ensures { TurnsOn job.entry.file.now job.entry.counts progress result
        (buffers_of progress table.old report.old linearization.old)
        (buffers_of result table.new report.new linearization.new) }
{
    let none = [0u16; 1];
    let indexed = Indexed {
        job,
        successors: &none[..0],
    };
    turn_on(indexed, progress, table, report, linearization)
}

// The tally after the grant that a progress tells of. An idle grant leaves the mask, so that its ones are not counted again:
// here, where every grant's tally is written, that is half of an idle grant.
fn tally_after(tally: Tally, progress: Progress) -> Tally
    requires { Addition tally progress }
    ensures { result ≡ counted_of tally progress.done progress.mask }
{
    let done = progress.done;
    if done.idle {
        return added(tally, done, tally.working);
    }
    counted(tally, progress)
}

// Adds a grant to the lent tally.
pub fn add(tally: &mut Tally, progress: Progress)
    requires { Addition tally.old progress }
    ensures { tally.new ≡ counted_of tally.old progress.done progress.mask }
{
    *tally = tally_after(*tally, progress);
}

// Plays a job file on lent buffers and a lent tally: the tally is zeroed at an accepted start and added to at each grant; a
// refusal writes nothing.
pub fn grouping_play_lent(
    file: &[u8],
    table: &mut [Word],
    report: &mut [u32],
    linearization: &mut [u32],
    tally: &mut Tally,
) -> Result<Play, Refusal>
    ensures exact { left table.new report.new linearization.new (played_told result)
        ≡ played_of file.now table.old report.old linearization.old }
    ensures counted { tally.new
        ≡ tally_left file.now table.old report.old linearization.old tally.old }
    ensures linearized { (played_told result).number ≡ 0
        → LinearizedHere file.now (played_told result) table.new report.new linearization.new }
    ensures lawful { (played_told result).number ≡ 0
        → LawfulHere file.now (played_told result) table.new report.new }
    ensures waited { (played_told result).number ≡ 0
        → WaitedHere file.now (played_told result) report.new linearization.new }
{
    let job = admission(file, table.len(), report.len(), linearization.len())?;
    let counts = job.counts;
    let mut progress = lay_out(job, table, report);
    *tally = first_tally(progress);
    for _granted in 0..counts.grants {
        progress = turn_searching(job, progress, table, report, linearization);
        add(tally, progress);
    }
    Ok(closed(counts, progress, *tally))
}
