// The lent list of rows: filled, and read for the page.
ghost use Rattle.std.specs.Prelude.{◌≡◌, ◌++◌, map, ◌≤◌, length, drop};
ghost use Rattle.job.specs.Job.{most_nodes};
ghost use Rattle.word.specs.Word.{decode};
ghost use Rattle.page.specs.Rows.{group_rows};
ghost use Rattle.page.specs.Gathered.{Gathered};
ghost use Rattle.page.specs.Written.{lined};

use crate::Row;
use crate::groups::{Groups, row_at};
use crate::lines::put_lines;
use table::admission::AdmittedTable;

// Fills the first rows of the list with those of an admitted table, from its groups.
pub fn fill_rows(rows: &mut [Row], table: AdmittedTable, groups: &Groups)
    requires gathered { Gathered (map decode table.words.now) (length table.words.now) groups.now }
    requires count_in_bounds { groups.now.count ≤ length rows.old }
    ensures { rows.new ≡ group_rows (map decode table.entry.words.now)
        ++ drop (length (group_rows (map decode table.entry.words.now))) rows.old }
{
    for k in 0..groups.count {
        rows[k] = row_at(table, groups, k);
    }
}

// Writes the lines of the first rows of the list on the page.
pub fn write_page(rows: &[Row], page: &mut [u8], count: usize)
    requires count_in_bounds { count ≤ length rows.now }
    requires count_le_most_nodes { count ≤ most_nodes }
    ensures { page.new ≡ lined rows.now count page.old }
{
    for i in 0..count {
        put_lines(page, i, rows[i]);
    }
}
