// The report row of a request, and what one grant does to it; the rules that the whole core is held against are in specs/.
#![tactic(auto)]

ghost use Rattle.std.specs.Prelude.{◌≡◌, ◌<◌};
ghost use Rattle.rules.specs.Report.{is_final, charge};

use job::Answer;

// The report's four numbers of a request: answer, first grant, last grant, grants used.
#[derive(Clone, Copy, Debug, PartialEq, Eq)]
pub struct Row {
    pub answer: u32,
    pub first: u32,
    pub last: u32,
    pub used: u32,
}

// Whether an answer finishes its request.
pub fn is_final(answer: Answer) -> bool
    ensures { result ≡ is_final answer }
{
    answer != Answer::Unfinished
}

// The row after one more grant, number now, that gave this answer.
#[tactic(auto, unfolding(crate::specs::Report::charge))]
pub fn charged(row: Row, now: u32, answer: Answer) -> Row
    requires { row.used < 4294967295 }
    ensures { result ≡ charge row now answer }
{
    Row {
        answer: u32::from(answer),
        first: if row.first == 0 { now } else { row.first },
        last: if is_final(answer) { now } else { 0 },
        used: row.used + 1,
    }
}
