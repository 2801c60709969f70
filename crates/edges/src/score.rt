// The lines of the output, one a case: its number and label, the numbers answered, and whether they are the expected ones.
use std::fmt;
use std::io::{Print, Stdout};

// Where the lines go, the cases played so far, and how many of them came out wrong. A line that can't be written is left out:
// the lines are held against those that are expected.
#[derive(Clone, Copy)]
pub struct Score {
    out: Stdout,
    cases: u32,
    wrong: u32,
}

impl Score {
    // No case played yet.
    pub fn new(out: Stdout) -> Score {
        Score {
            out,
            cases: 0,
            wrong: 0,
        }
    }

    // Prints a line that is no case's.
    pub fn say(&self, line: &str) {
        let _ = println!(self.out; "{line}");
    }

    // Counts a case, and prints the start of its line: its number and its label.
    pub fn begin(&mut self, label: &str) {
        self.cases = self.cases.saturating_add(1);
        let case = self.cases;
        let _ = print!(self.out; "{case} {label}|");
    }

    // Prints numbers, each behind a space.
    pub fn tell(&self, numbers: &[u32]) {
        for number in numbers {
            let _ = print!(self.out; " {number}");
        }
    }

    // Ends a case's line.
    pub fn judge(&mut self, is_right: bool) {
        if is_right {
            let _ = println!(self.out; " ok");
            return;
        }
        self.wrong = self.wrong.saturating_add(1);
        let _ = println!(self.out; " wrong");
    }

    // Prints the last line.
    pub fn end(&self) {
        let _ = println!(self.out; "{self}");
    }
}

// How many cases there were, and how many came out wrong.
impl fmt::Display for Score {
    fn fmt<W: fmt::Write>(&self, f: &mut fmt::Formatter<W>) -> fmt::Result {
        let cases = self.cases;
        let wrong = self.wrong;
        write!(f, "cases {cases} wrong {wrong}")
    }
}
