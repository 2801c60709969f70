// The text of a table: a row's fields stand between bars, a field's lists between strokes, and a word may say how many times it is
// meant. What can't be read as the number that it should be, and what finds no room, is a fault of the table.
use crate::list::Full;
use std::num::ParseIntError;

// Why a table can't be played to its end.
#[derive(Debug, Drop)]
pub enum Fault {
    Full,
    Number(ParseIntError),
}

impl From<Full> for Fault {
    fn from(_: Full) -> Fault {
        Fault::Full
    }
}

impl From<ParseIntError> for Fault {
    fn from(error: ParseIntError) -> Fault {
        Fault::Number(error)
    }
}

// The part with a number, empty where the text has none; they count from 0.
fn part(text: &str, between: char, number: usize) -> &str {
    text.split(between).nth(number).unwrap_or("")
}

// The field of a row with a number, empty where the row has none.
pub fn field(row: &str, number: usize) -> &str {
    part(row, '|', number)
}

// The list with a number in a field of lists, empty where the field has none.
pub fn list(field: &str, number: usize) -> &str {
    part(field, '/', number)
}

// A word without its star, and how many times it is meant: the number behind the star, once where it has none.
pub fn copies(word: &str) -> Result<(&str, u32), ParseIntError> {
    match word.split_once('*') {
        Some((word, copies)) => Ok((word, copies.parse()?)),
        None => Ok((word, 1)),
    }
}
