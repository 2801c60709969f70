// What the words of a field stand for: the bytes of a file or of a list of grants, or the numbers of a list.
//
//   4B         a byte; 00*32768 is that many
//   J          a job's record, two places and two heads
//   Q*512      that many requests, each a union of 0 and 1 for head 0; in a list of numbers the same four numbers each
//   V*32       the records of that many rights (02, A5), head 0's first, each of both kinds and sight of the head itself; in a
//              list of numbers three numbers each
//   W*2        that many records of the pair 1 0 (02, A3): request 1 waits for request 0
//   P*4777     the records of that many pairs that rise, 1 0, 2 0, 2 1, 3 0 and so on; in a list of numbers two numbers each
//   R*8189     that many runs of 255 for head 0
//   S*4094     that many pairs of runs, one grant for head 0 and one for head 1
//   T*4094     that many pairs of bytes 00 01, as the grants of such runs are
//   =          a close that balances the bytes before it
//   17         in a list of numbers, that number
use crate::list::{Full, List};
use crate::text::{Fault, copies};

// Room for 5,322 pairs: 5,321 beside 104 requests are the most that a file can have.
pub const PAIRS: usize = 5322;

// Adds some items that many times.
fn add_copies<T: Copy, const N: usize>(
    all: &mut List<T, N>,
    items: &[T],
    count: u32,
) -> Result<(), Full> {
    for _ in 0..count {
        all.extend_from_slice(items)?;
    }
    Ok(())
}

// What is missing to the next multiple of 65,536 in the sum of all 16-bit words: a word's second byte is its high one.
fn balance(bytes: &[u8]) -> u16 {
    let mut sum: u16 = 0;
    for word in bytes.chunks(2) {
        let low = word.first().copied().unwrap_or(0);
        let high = word.get(1).copied().unwrap_or(0);
        sum = sum.wrapping_add(u16::from_le_bytes([low, high]));
    }
    sum.wrapping_neg()
}

// Adds a close that balances the bytes before it.
fn add_close<const N: usize>(file: &mut List<u8, N>) -> Result<(), Full> {
    file.extend_from_slice(b"CL")?;
    let balance = balance(file.as_slice());
    file.extend_from_slice(&balance.to_le_bytes())
}

// The right of a head that may ask for both kinds and sees itself alone: head, kinds and mask.
fn right_of(head: u32) -> [u32; 3] {
    let sight = if head < 32 { 1 << head } else { 0 };
    [head, 3, sight]
}

// Adds the records of the rights of that many heads.
fn add_right_records<const N: usize>(file: &mut List<u8, N>, count: u32) -> Result<(), Full> {
    for head in 0..count {
        let [head, kinds, sight] = right_of(head);
        let [head, _, _, _] = head.to_le_bytes();
        let [kinds, _, _, _] = kinds.to_le_bytes();
        file.extend_from_slice(&[b'R', b'T', head, kinds])?;
        file.extend_from_slice(&sight.to_le_bytes())?;
    }
    Ok(())
}

// A pair (02, A3): the later request waits for the earlier one.
#[derive(Clone, Copy, Debug, PartialEq, Eq)]
struct Pair {
    later: u16,
    earlier: u16,
}

impl Pair {
    // The pair behind this one where every request waits for all before it.
    fn next(self) -> Pair {
        let earlier = self.earlier.wrapping_add(1);
        if earlier < self.later {
            return Pair {
                later: self.later,
                earlier,
            };
        }
        Pair {
            later: self.later.wrapping_add(1),
            earlier: 0,
        }
    }
}

// The first of the pairs that rise. They are made one by one: a list of them would be cleared at each word, whatever it is.
const FIRST_PAIR: Pair = Pair {
    later: 1,
    earlier: 0,
};

// Adds the records of that many pairs that rise.
fn add_pair_records<const N: usize>(file: &mut List<u8, N>, count: u32) -> Result<(), Full> {
    let mut pair = FIRST_PAIR;
    for _ in 0..count {
        file.extend_from_slice(b"AF")?;
        file.extend_from_slice(&pair.later.to_le_bytes())?;
        file.extend_from_slice(&pair.earlier.to_le_bytes())?;
        pair = pair.next();
    }
    Ok(())
}

// Adds the bytes of a word.
fn add_word_bytes<const N: usize>(bytes: &mut List<u8, N>, word: &str) -> Result<(), Fault> {
    let (word, count) = copies(word)?;
    match word {
        "J" => add_copies(bytes, b"DK\x02\x00\x02\x00", count)?,
        "Q" => add_copies(bytes, b"RQ\x00\x01\x00\x00\x01\x00", count)?,
        "V" => add_right_records(bytes, count)?,
        "W" => add_copies(bytes, b"AF\x01\x00\x00\x00", count)?,
        "P" => add_pair_records(bytes, count)?,
        "R" => add_copies(bytes, b"GR\x00\xFF", count)?,
        "S" => add_copies(bytes, b"GR\x00\x01GR\x01\x01", count)?,
        "T" => add_copies(bytes, b"\x00\x01", count)?,
        "=" => add_close(bytes)?,
        byte => bytes.push_copies(u8::from_str_radix(byte, 16)?, count as usize)?,
    }
    Ok(())
}

// Adds the bytes that a field's words stand for.
pub fn add_bytes<const N: usize>(bytes: &mut List<u8, N>, field: &str) -> Result<(), Fault> {
    for word in field.split_whitespace() {
        add_word_bytes(bytes, word)?;
    }
    Ok(())
}

// Adds the numbers of the rights of that many heads.
fn add_rights<const N: usize>(numbers: &mut List<u32, N>, count: u32) -> Result<(), Full> {
    for head in 0..count {
        numbers.extend_from_slice(&right_of(head))?;
    }
    Ok(())
}

// Adds the numbers of that many pairs that rise.
fn add_pairs<const N: usize>(numbers: &mut List<u32, N>, count: u32) -> Result<(), Full> {
    let mut pair = FIRST_PAIR;
    for _ in 0..count {
        numbers.extend_from_slice(&[u32::from(pair.later), u32::from(pair.earlier)])?;
        pair = pair.next();
    }
    Ok(())
}

// Adds the numbers of a word.
fn add_word_numbers<const N: usize>(numbers: &mut List<u32, N>, word: &str) -> Result<(), Fault> {
    let (word, count) = copies(word)?;
    match word {
        "Q" => add_copies(numbers, &[0, 1, 0, 1], count)?,
        "V" => add_rights(numbers, count)?,
        "P" => add_pairs(numbers, count)?,
        number => add_copies(numbers, &[number.parse()?], count)?,
    }
    Ok(())
}

// The numbers that a field's words stand for.
pub fn numbers_of<const N: usize>(field: &str) -> Result<List<u32, N>, Fault> {
    let mut numbers = List::new(0);
    for word in field.split_whitespace() {
        add_word_numbers(&mut numbers, word)?;
    }
    Ok(numbers)
}
