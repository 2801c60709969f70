// The lent report and the lent linearization, one function each.
ghost use Rattle.std.specs.Prelude.{◌≡◌, ◌≢◌, cond, ◌+◌, ◌*◌, ◌≤◌, ◌<◌, eqb, length};
ghost use Rattle.linearization.specs.Entry.{inserted, Insertable};
ghost use Rattle.rules.specs.Report.{charge};
ghost use Rattle.stepper.specs.Buffers.{row_in, stored};

use job::Answer;
use rules::Row;

// The report after one more grant, of that number, for a request.
pub fn charge_row(report: &mut [u32], request: u16, number: u32, answer: Answer)
    requires request_in_bounds { 4 * request + 4 ≤ length report.old }
    requires used_bound { (row_in report.old (4 * request)).used < 4294967295 }
    ensures { report.new ≡ stored report.old (4 * request)
        (charge (row_in report.old (4 * request)) number answer) }
{
    let at = 4 * usize::from(request);
    let row = Row {
        answer: report[at],
        first: report[at + 1],
        last: report[at + 2],
        used: report[at + 3],
    };
    let next = rules::charged(row, number, answer);
    report[at] = next.answer;
    report[at + 1] = next.first;
    report[at + 2] = next.last;
    report[at + 3] = next.used;
}

// The linearization with an entry at its point, where a point is known; the number of entries. 0 is none, as in `Event` and in
// both clauses.
pub fn enter(linearization: &mut [u32], entries: u32, point: u32, request: u32) -> u32
    requires insertable { point ≢ 0 → Insertable linearization.old entries }
    requires entries_bound { entries < 4294967295 }
    ensures counted { result ≡ cond (eqb point 0) entries (entries + 1) }
    ensures entered { linearization.new ≡ cond (eqb point 0) linearization.old
        (inserted linearization.old entries point request) }
{
    if point == 0 {
        return entries;
    }
    linearization::insert_entry(linearization, entries, point, request);
    entries + 1
}
