// The core's functions for programs in C and Rust: each calls the function that it is named after and promises the same, and
// makes the struct of the header from its answer. A slice is passed as a pointer and a length, and a result is returned by value.
#![tactic(auto)]

ghost use Rattle.std.specs.Prelude.{◌≡◌};
ghost use Rattle.rules.specs.Bounds.{levels, Logarithm};
ghost use Rattle.bounds.specs.Bounds.{limits_of};
ghost use Rattle.player.specs.Player.{left, played_of};
ghost use Rattle.player.specs.Demand.{LinearizedHere, LawfulHere, WaitedHere, BoundedHere};
ghost use Rattle.writer.specs.Write.{given, writes};
ghost use Rattle.query.specs.Query.{queried};
ghost use Rattle.query.specs.Faithful.{Faithful};
ghost use Rattle.listing.specs.Listing.{listed, printed};

use bounds::Limits;
use job::Played;
use listing::Listed;
use query::Queried;
use word::Word;
use writer::Written;

// Plays a job file: any bytes, on any lent buffers. Everything is checked before anything is written.
#[unsafe(no_mangle)]
pub extern "C" fn grouping_play(
    file: &[u8],
    table: &mut [Word],
    report: &mut [u32],
    linearization: &mut [u32],
) -> Played
    ensures exact { left table.new report.new linearization.new result
        ≡ played_of file.now table.old report.old linearization.old }
    ensures linearized { result.number ≡ 0
        → LinearizedHere file.now result table.new report.new linearization.new }
    ensures lawful { result.number ≡ 0 → LawfulHere file.now result table.new report.new }
    ensures waited { result.number ≡ 0 → WaitedHere file.now result report.new linearization.new }
    ensures bounded { result.number ≡ 0 → BoundedHere file.now result report.new }
{
    Played::from(player::play(file, table, report, linearization))
}

// Writes the file of a job, from three numbers a head's rights (head, rights, mask) or none, four a request, two a pair of
// requests (the later one, the earlier one) and one head number a grant.
#[unsafe(no_mangle)]
pub extern "C" fn grouping_write(
    nodes: u32,
    heads: u32,
    rights: &[u32],
    requests: &[u32],
    waits: &[u32],
    grants: &[u8],
    out: &mut [u8],
) -> Written
    ensures { record { answer = result; out = out.new }
        ≡ writes (given nodes heads rights.now requests.now waits.now grants.now)
        out.old }
{
    Written::from(writer::write(nodes, heads, rights, requests, waits, grants, out))
}

// Makes a counter enquiry: are x and y in one set, within a budget of grants?
#[unsafe(no_mangle)]
pub extern "C" fn grouping_query(table: &mut [Word], x: u32, y: u32, budget: u16) -> Queried
    ensures exact { record { queried = result; table = table.new } ≡ queried table.old x y budget }
    ensures faithful { result.number ≡ 0
        → Faithful table.old x y budget (record { queried = result; table = table.new }) }
{
    Queried::from(query::query(table, x, y, budget))
}

// Prints a played job as text into a lent buffer.
#[unsafe(no_mangle)]
pub extern "C" fn grouping_list(
    played: Played,
    table: &[Word],
    report: &[u32],
    linearization: &[u32],
    out: &mut [u8],
) -> Listed
    ensures answer { result ≡ listed played table.now report.now linearization.now out.old }
    ensures text { out.new
        ≡ printed played table.now report.now linearization.now out.old }
{
    Listed::from(listing::list(played, table, report, linearization, out))
}

// Tells how many of its own grants a same-set and a union on that many nodes take at most, whatever the others do.
#[unsafe(no_mangle)]
pub extern "C" fn grouping_limits(nodes: u32) -> Limits
    ensures exact { result ≡ limits_of nodes }
    ensures logarithm { result.number ≡ 0 → Logarithm nodes (levels nodes) }
{
    Limits::from(bounds::limits_of(nodes))
}
