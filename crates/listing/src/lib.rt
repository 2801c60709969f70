// The listing: the text of a played job, as bytes in a lent buffer.
#![tactic(auto)]

pub mod sections;
mod sources;

ghost use Rattle.std.specs.Prelude.{◌≡◌};
ghost use Rattle.listing.specs.Listing.{listed, printed, listed_told};

use crate::sources::Sources;
use job::{Played, Refusal};
use word::Word;

// What a host is told of a text: 0 and its length, which a usize holds for every play, or a refusal's number and zero.
#[repr(C)]
#[derive(Clone, Copy, Debug, PartialEq, Eq)]
pub struct Listed {
    pub number: u32,
    pub bytes: usize,
}

impl From<Result<usize, Refusal>> for Listed {
    ghost from_gives = { λ answer listed. listed ≡ listed_told answer };

    fn from(answer: Result<usize, Refusal>) -> Listed {
        match answer {
            Ok(bytes) => Listed { number: 0, bytes },
            Err(refusal) => Listed {
                number: u32::from(refusal),
                bytes: 0,
            },
        }
    }
}

// Prints a played job: its text into `out`, whose length it answers, or a refusal where a buffer is too short, with `out` as it was.
#[tactic(auto, unfolding(crate::specs::Listing::listed, crate::specs::Listing::printed))]
pub fn list(
    played: Played,
    table: &[Word],
    report: &[u32],
    linearization: &[u32],
    out: &mut [u8],
) -> Result<usize, Refusal>
    ensures answer { listed_told result ≡ listed played table.now report.now linearization.now out.old }
    ensures text { out.new
        ≡ printed played table.now report.now linearization.now out.old }
{
    let sources = Sources::check(played, table, report, linearization)?;
    let bytes = sources.length();
    if out.len() < bytes {
        return Err(Refusal::Buffer);
    }
    sources.put(out);
    Ok(bytes)
}
