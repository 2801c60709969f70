// Text into a lent buffer: bytes, decimal numbers and lines, each from a position on; the result is the position past it.
// A byte past the buffer's end is counted and dropped, so that writing into an empty buffer measures the text.
// The buffer and the position stay two parameters: with a struct of both a listing takes 1.12 times as long, and the bar is 1.1.
#![tactic(auto)]

ghost use Rattle.std.specs.Prelude.{[], ◌∷◌, ◌<◌, ℕ, List};
ghost use Rattle.text.specs.Text.{last_two, decimal, fields, line, each};
ghost use Rattle.text.specs.Writing.{Wrote};

// Writes one byte. No buffer reaches to the last position, so that counting may end there.
pub fn put_byte(out: &mut [u8], at: usize, byte: u8) -> usize
    ensures { Wrote (byte ∷ []) at out.old out.new result }
{
    if at < out.len() {
        out[at] = byte;
        return at + 1;
    }
    if at == usize::MAX {
        return at;
    }
    at + 1
}

// Writes a number's last two decimal digits.
fn put_last_two(out: &mut [u8], at: usize, n: u32) -> usize
    ensures { Wrote (last_two n) at out.old out.new result }
{
    let next = put_byte(out, at, (48 + n / 10 % 10) as u8);
    put_byte(out, next, (48 + n % 10) as u8)
}

// Writes a number's decimal digits, two a call of its own.
#[tactic(auto, using(crate::proofs::Text::decimal_digit, crate::proofs::Text::decimal_two))]
pub fn put_decimal(out: &mut [u8], at: usize, n: u32) -> usize
    ensures { Wrote (decimal n) at out.old out.new result }
{
    if n < 10 {
        return put_byte(out, at, (48 + n) as u8);
    }
    if n < 100 {
        return put_last_two(out, at, n);
    }
    let next = put_decimal(out, at, n / 100);
    put_last_two(out, next, n)
}

// Writes bytes as they are, such as a line's name.
pub fn put_bytes(out: &mut [u8], at: usize, bytes: &[u8]) -> usize
    ensures { Wrote bytes.now at out.old out.new result }
{
    let mut next = at;
    for &byte in bytes {
        next = put_byte(out, next, byte);
    }
    next
}

// Writes numbers, a space before each.
#[tactic(auto, unfolding(crate::specs::Text::fields))]
pub fn put_fields(out: &mut [u8], at: usize, numbers: &[u32]) -> usize
    ensures { Wrote (fields numbers.now) at out.old out.new result }
{
    let mut next = at;
    for &number in numbers {
        let digits = put_byte(out, next, b' ');
        next = put_decimal(out, digits, number);
    }
    next
}

// Writes one line: its name, numbers and a line feed.
pub fn put_line(out: &mut [u8], at: usize, name: &[u8], numbers: &[u32]) -> usize
    ensures { Wrote (line name.now numbers.now) at out.old out.new result }
{
    let named = put_bytes(out, at, name);
    let numbered = put_fields(out, named, numbers);
    put_byte(out, numbered, b'\n')
}

// Writes one text after another, each by a call.
pub fn put_each<F: Fn(u32, &mut [u8], usize) -> usize>(
    out: &mut [u8],
    at: usize,
    count: u32,
    put: F,
) -> usize
    requires { (i : ℕ) (out : _) (at : ℕ) → i < count → F.pre put i out at }
    ensures { (text : ℕ → List ℕ)
        → ((i : ℕ) (before : _) (from next : ℕ) (after : _) → i < count → F.post put i before from next after
        → Wrote (text i) from before.now after.now next)
        → Wrote (each text count) at out.old out.new result }
{
    let mut next = at;
    for i in 0..count {
        next = put(i, out, next);
    }
    next
}
