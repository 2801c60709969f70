// The writer of job files: checks all that it is given, then writes the file into a lent buffer.
#![tactic(auto)]

mod checks;
mod records;

ghost use Rattle.std.specs.Prelude.{◌≡◌};
ghost use Rattle.writer.specs.Write.{given, writes, written_told};

use checks::Draft;
use job::Refusal;
use records::put_file;

// What a host is told of the writer's answer: 0 and the bytes written, or a refusal's number and no bytes.
#[repr(C)]
#[derive(Clone, Copy, Debug, PartialEq, Eq)]
pub struct Written {
    pub number: u32,
    pub bytes: u32,
}

impl From<Result<u32, Refusal>> for Written {
    ghost from_gives = { λ answer written. written ≡ written_told answer };

    fn from(answer: Result<u32, Refusal>) -> Written {
        match answer {
            Ok(bytes) => Written { number: 0, bytes },
            Err(refusal) => Written {
                number: u32::from(refusal),
                bytes: 0,
            },
        }
    }
}

// Writes the file of a job, and answers with its length. `rights` (02, A5) has three numbers a right (head, rights, mask), where
// a rest of fewer than three is no right; `requests` has four numbers a request (head, kind, x, y), where a rest of fewer than
// four is no request; `waits` (02, A3) has two numbers a pair (later, earlier), where a rest of one is no pair; `grants` has one
// head number a grant. A refusal writes nothing, and bytes behind the file stay.
#[tactic(auto, using(crate::proofs::File::left_lemmas))]
pub fn write(
    nodes: u32,
    heads: u32,
    rights: &[u32],
    requests: &[u32],
    waits: &[u32],
    grants: &[u8],
    out: &mut [u8],
) -> Result<u32, Refusal>
    ensures { record { answer = written_told result; out = out.new }
        ≡ writes (given nodes heads rights.now requests.now waits.now grants.now)
        out.old }
{
    let draft = Draft {
        nodes,
        heads,
        rights,
        requests,
        waits,
        grants,
    };
    let bytes = draft.check(out.len())?;
    put_file(draft, out);
    Ok(bytes)
}
