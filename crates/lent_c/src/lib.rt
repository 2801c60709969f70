// The play on a lent tally for programs in C and Rust: it calls `lent::grouping_play_lent`, promises the same, and makes the
// struct of the header from its answer.
#![tactic(auto)]

ghost use Rattle.std.specs.Prelude.{◌≡◌};
ghost use Rattle.player.specs.Player.{left, played_of};
ghost use Rattle.player.specs.Demand.{LinearizedHere, LawfulHere, WaitedHere};
ghost use Rattle.lent.specs.Lent.{tally_left};

use job::{Played, Tally};
use word::Word;

// Plays a job file on lent buffers and a lent tally: the tally is zeroed at an accepted start and added to at each grant; a
// refusal writes nothing.
#[unsafe(no_mangle)]
pub extern "C" fn grouping_play_lent(
    file: &[u8],
    table: &mut [Word],
    report: &mut [u32],
    linearization: &mut [u32],
    tally: &mut Tally,
) -> Played
    ensures exact { left table.new report.new linearization.new result
        ≡ played_of file.now table.old report.old linearization.old }
    ensures counted { tally.new
        ≡ tally_left file.now table.old report.old linearization.old tally.old }
    ensures linearized { result.number ≡ 0
        → LinearizedHere file.now result table.new report.new linearization.new }
    ensures lawful { result.number ≡ 0 → LawfulHere file.now result table.new report.new }
    ensures waited { result.number ≡ 0 → WaitedHere file.now result report.new linearization.new }
{
    Played::from(lent::grouping_play_lent(file, table, report, linearization, tally))
}
