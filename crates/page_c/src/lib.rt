// The groups of a finished table on paper for programs in C and Rust: it calls `page::grouping_page` and promises the same.
#![tactic(auto)]

ghost use Rattle.std.specs.Prelude.{◌≡◌};
ghost use Rattle.page.specs.Page.{paged_of};
ghost use Rattle.page.specs.Grouped.{GroupedHere};

use page::{Paged, Row};
use word::Word;

// Fills the list of rows with the groups of a table and prints the page: the table is only read, rows and bytes past those
// written stay, and a refusal writes nothing.
#[unsafe(no_mangle)]
pub extern "C" fn grouping_page(table: &[Word], rows: &mut [Row], page: &mut [u8]) -> Paged
    ensures exact { record { answer = result; rows = rows.new; page = page.new }
        ≡ paged_of table.now rows.old page.old }
    ensures grouped { result.number ≡ 0 → GroupedHere table.now result rows.new page.new }
{
    Paged::from(page::grouping_page(table, rows, page))
}
