// 16-bit words of a file, at any place: a byte past the end counts as 0, which is in no mark.
ghost use Rattle.std.specs.Prelude.{◌≡◌, ◌+◌, ◌%◌, ◌≤◌, length, drop};
ghost use Rattle.jobfile.specs.Format.{word, word_sum};

// The word at a place where both of its bytes are there, low byte first.
pub fn whole_word(file: &[u8], at: usize) -> u16
    requires { at + 2 ≤ length file.now }
    ensures { result ≡ word (drop at file.now) }
{
    u16::from(file[at]) + 256 * u16::from(file[at + 1])
}

// The word at a place.
pub fn word_at(file: &[u8], at: usize) -> u16
    ensures { result ≡ word (drop at file.now) }
{
    if file.len() <= at {
        return 0;
    }
    if file.len() - at == 1 {
        return u16::from(file[at]);
    }
    whole_word(file, at)
}

// The sum of the file's words; carries out of 16 bits are dropped. A byte that is left over is the low byte of the last word.
#[tactic(auto, using(crate::proofs::Sums::next_word))]
pub fn sum_words(file: &[u8]) -> u16
    ensures { result ≡ word_sum file.now % 65536 }
{
    let (words, rest) = file.as_chunks::<2>();
    let mut sum: u16 = 0;
    for &[low, high] in words {
        sum = sum.wrapping_add(u16::from(low) + 256 * u16::from(high));
    }
    sum.wrapping_add(word_at(rest, 0))
}
