// The linearization in a lent buffer: an entry goes in at its point, and later entries move up one place.
#![tactic(auto)]

ghost use Rattle.std.specs.Prelude.{◌≡◌, ◌*◌, ◌≤◌, length};
ghost use Rattle.linearization.specs.Entry.{earlier, listed, moved_up, inserted, Insertable};

// Where the entry at a point belongs, in numbers: behind the entries that stand before it. It looks from the back,
// since nearly every entry goes in last.
#[tactic(auto, using(crate::proofs::Buffer::scanned_here))]
fn position(linearization: &[u32], entries: usize, point: u32) -> usize
    requires { Insertable linearization.now entries }
    ensures { result ≡ 2 * earlier point (listed linearization.now entries) }
{
    for k in (0..entries).rev() {
        if linearization[2 * k] <= point {
            return 2 * k + 2;
        }
    }
    0
}

// Moves the numbers of a part up one entry. Its first two numbers are then free, its last two gone.
fn move_up(part: &mut [u32])
    requires { 2 ≤ length part.old }
    ensures { part.new ≡ moved_up part.old }
{
    let end = part.len() - 2;
    part.copy_within(0..end, 2);
}

// Inserts an entry at its point: the numbers from there to the end of the new last entry are lent and moved up.
#[tactic(auto, using(crate::proofs::Buffer::position_within, crate::proofs::Buffer::insertion_made))]
pub fn insert_entry(linearization: &mut [u32], entries: u32, point: u32, request: u32)
    requires { Insertable linearization.old entries }
    ensures { linearization.new ≡ inserted linearization.old entries point request }
{
    let count = entries as usize;
    let at = position(linearization, count, point);
    let end = 2 * count + 2;
    move_up(&mut linearization[at..end]);
    linearization[at] = point;
    linearization[at + 1] = request;
}
