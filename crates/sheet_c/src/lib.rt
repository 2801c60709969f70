// A head's sheet for programs in C and Rust: it calls `sheet::grouping_sheet`, promises the same, and tells its answer by a number.
#![tactic(auto)]

ghost use Rattle.std.specs.Prelude.{◌≡◌};
ghost use Rattle.sheet.specs.Call.{sheet_of};

use listing::Listed;

// Writes the sheet of one head of a job file into `out`: any bytes, any head, any buffer. It plays the file on buffers for the
// largest job, and a refusal writes nothing.
#[unsafe(no_mangle)]
pub extern "C" fn grouping_sheet(file: &[u8], head: u32, out: &mut [u8]) -> Listed
    ensures { record { answer = result; out = out.new } ≡ sheet_of file.now head out.old }
{
    Listed::from(sheet::grouping_sheet(file, head, out))
}
