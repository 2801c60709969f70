// A head's sheet (02, A5): the requests that the head may see, numbered among themselves, and their line-up.
#![tactic(auto)]

mod lines;
mod numbering;

ghost use Rattle.std.specs.Prelude.{◌≡◌};
ghost use Rattle.job.specs.Job.{sight_of};
ghost use Rattle.jobfile.specs.Meaning.{meaning};
ghost use Rattle.stepper.specs.Shown.{requests_in};
ghost use Rattle.listing.specs.Listing.{listed_told};
ghost use Rattle.sheet.specs.Sight.{sighted};
ghost use Rattle.sheet.specs.Call.{run_in, run_text, written_of, sheet_of};
ghost use Rattle.sheet.specs.Buffers.{HoldingRun};

use job::{MOST_NODES, MOST_REQUESTS, Refusal};
use lines::SheetParts;
use numbering::numbered;
use reader::Accepted;

// The mask of the heads that a head may see.
fn sight_of(job: Accepted, head: u32) -> u32
    ensures { result ≡ sight_of (meaning job.entry.file.now).job head }
{
    job.right(head).sight
}

// The sheet of the requests whose heads have their bit in `sight`, from the buffers that the play of an accepted file left.
fn sheet_for(
    job: Accepted,
    sight: u32,
    report: &[u32],
    linearization: &[u32],
    entries: u32,
    out: &mut [u8],
) -> Result<usize, Refusal>
    requires { HoldingRun job.file.now report.now linearization.now entries }
    ensures { record { answer = listed_told result; out = out.new }
        ≡ written_of (run_text (sighted sight (requests_in job.entry.file.now)) (run_in job.entry.file.now)) out.old }
{
    let mut numbers = [None; MOST_REQUESTS];
    numbered(job, sight, &mut numbers);
    let parts = SheetParts {
        numbers: &numbers,
        report,
        requests: job.counts.requests,
        linearization,
        entries,
    };
    parts.write(out)
}

// Writes the sheet of one head of a job file into `out`: any bytes, any head, any buffer. It plays the file on buffers for the
// largest job, and a refusal writes nothing.
pub fn grouping_sheet(file: &[u8], head: u32, out: &mut [u8]) -> Result<usize, Refusal>
    ensures { record { answer = listed_told result; out = out.new } ≡ sheet_of file.now head out.old }
{
    let mut table = [0u32; MOST_NODES];
    let mut report = [0u32; 4 * MOST_REQUESTS];
    let mut linearization = [0u32; 2 * MOST_REQUESTS];
    let play = player::play(file, &mut table, &mut report, &mut linearization)?;
    if play.heads <= head {
        return Err(Refusal::Grant);
    }
    let job = Accepted::check(file)?;
    let sight = sight_of(job, head);
    sheet_for(job, sight, &report, &linearization, play.entries, out)
}
