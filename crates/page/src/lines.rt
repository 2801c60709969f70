// The lines of a page: columns of eight characters, each line 32 of them and a line feed.
ghost use Rattle.std.specs.Prelude.{◌≡◌, map, ◌≤◌, ◌<◌, length};
ghost use Rattle.std.proofs.lemmas.List.Edits.{sets};
ghost use Rattle.job.specs.Job.{most_nodes};
ghost use Rattle.text.specs.Text.{decimal};
ghost use Rattle.text.specs.Writing.{Wrote};
ghost use Rattle.page.specs.Page.{right_aligned, columns, row_line, row_lines};
ghost use Rattle.page.specs.Written.{page_length};

use crate::Row;
use text::{put_byte, put_bytes, put_decimal};

// How many digits a number has: a turn is a digit, and no index is counted.
fn digits(n: u32) -> usize
    ensures { result ≡ length (decimal n) }
{
    let mut left = n;
    let mut digits = 1;
    while 10 <= left {
        left /= 10;
        digits += 1;
    }
    digits
}

// Writes a number at the right end of a column; most sizes and ranks are one digit, which is faster by itself.
fn put_column(page: &mut [u8], at: usize, n: u32) -> usize
    ensures { Wrote (right_aligned (decimal n)) at page.old page.new result }
{
    if n < 10 {
        let digit = (48 + n) as u8;
        return put_bytes(page, at, &[b' ', b' ', b' ', b' ', b' ', b' ', b' ', digit]);
    }
    let mut next = at;
    for _ in digits(n)..8 {
        next = put_byte(page, next, b' ');
    }
    put_decimal(page, next, n)
}

// Writes numbers, a column each.
fn put_columns(page: &mut [u8], at: usize, numbers: &[u32]) -> usize
    ensures { Wrote (columns (map decimal numbers.now)) at page.old page.new result }
{
    let mut next = at;
    for &n in numbers {
        next = put_column(page, next, n);
    }
    next
}

// Writes the line of a row.
fn put_row(page: &mut [u8], at: usize, row: Row) -> usize
    ensures { Wrote (row_line row) at page.old page.new result }
{
    let numbers = [row.lowest, row.size, row.root, row.rank];
    let end = put_columns(page, at, &numbers);
    put_byte(page, end, b'\n')
}

// How many bytes a page of so many rows has, which is also where the lines of the next row begin.
pub fn page_length(rows: usize) -> usize
    requires { rows ≤ most_nodes }
    ensures { result ≡ page_length rows }
{
    33 * (rows + (rows + 19) / 20)
}

// Writes the lines of row number i where they stand on the page: the row's, and before every twentieth row a heading.
pub fn put_lines(page: &mut [u8], i: usize, row: Row)
    requires { i < most_nodes }
    ensures { page.new ≡ sets page.old (page_length i) (row_lines i row) }
{
    let at = page_length(i);
    if i % 20 == 0 {
        let next = put_bytes(page, at, b"   group    size    root    rank\n");
        put_row(page, next, row);
        return;
    }
    put_row(page, at, row);
}
