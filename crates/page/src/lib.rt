// The groups of a finished table on paper: a row for each group, and a page of fixed columns made from the rows.
#![tactic(auto)]

pub mod groups;
pub mod lines;
pub mod list;

ghost use Rattle.std.specs.Prelude.{◌≡◌, ◌≤◌};
ghost use Rattle.job.specs.Job.{most_nodes};
ghost use Rattle.page.specs.Page.{paged_of};
ghost use Rattle.page.specs.Grouped.{GroupedHere};
ghost use Rattle.page.specs.Told.{paged_told, room_answer};

use crate::groups::gathered;
use crate::lines::page_length;
use crate::list::{fill_rows, write_page};
use job::Refusal;
use table::admission::AdmittedTable;
use word::Word;

// A group: its lowest place, how many places it has, its root and the root's rank.
#[repr(C)]
#[derive(Clone, Copy, Debug, PartialEq, Eq)]
pub struct Row {
    pub lowest: u32,
    pub size: u32,
    pub root: u32,
    pub rank: u32,
}

// How many rows and bytes were written.
#[derive(Clone, Copy, Debug, PartialEq, Eq)]
pub struct Printed {
    pub rows: u32,
    pub bytes: u32,
}

// What a host is told: 0 and how many rows and bytes were written, or a refusal's number and zeros.
#[repr(C)]
#[derive(Clone, Copy, Debug, PartialEq, Eq)]
pub struct Paged {
    pub number: u32,
    pub rows: u32,
    pub bytes: u32,
}

impl From<Result<Printed, Refusal>> for Paged {
    ghost from_gives = { λ answer paged. paged ≡ paged_told answer };

    fn from(answer: Result<Printed, Refusal>) -> Paged {
        match answer {
            Ok(printed) => Paged {
                number: 0,
                rows: printed.rows,
                bytes: printed.bytes,
            },
            Err(refusal) => Paged {
                number: u32::from(refusal),
                rows: 0,
                bytes: 0,
            },
        }
    }
}

// Checks that so many rows and bytes are room for that many groups.
fn check_room(groups: usize, rows: usize, bytes: usize) -> Result<Printed, Refusal>
    requires { groups ≤ most_nodes }
    ensures { paged_told result ≡ room_answer groups rows bytes }
{
    let length = page_length(groups);
    if rows < groups || bytes < length {
        return Err(Refusal::Page);
    }
    Ok(Printed {
        rows: groups as u32,
        bytes: length as u32,
    })
}

// Fills the list of rows with the groups of a table and prints the page: the table is only read, rows and bytes past those
// written stay, and a refusal writes nothing.
pub fn grouping_page(table: &[Word], rows: &mut [Row], page: &mut [u8]) -> Result<Printed, Refusal>
    ensures exact { record { answer = paged_told result; rows = rows.new; page = page.new }
        ≡ paged_of table.now rows.old page.old }
    ensures grouped { (paged_told result).number ≡ 0
        → GroupedHere table.now (paged_told result) rows.new page.new }
{
    let table = AdmittedTable::check(table)?;
    let groups = gathered(table);
    let printed = check_room(groups.count, rows.len(), page.len())?;
    fill_rows(rows, table, &groups);
    write_page(rows, page, groups.count);
    Ok(printed)
}
