// The shared table of words: one grant of a head on it, the one access and where it leads together; and a table that a host lends.
#![tactic(auto)]

pub mod admission;

ghost use Rattle.std.specs.Prelude.{◌≡◌, map, ◌+◌, ◌<◌};
ghost use Rattle.word.specs.Word.{rank_limit, decode, encode};
ghost use Rattle.process.specs.declared.Access.TheVariants.{Load, Cas};
ghost use Rattle.process.specs.Process.{Raisable, node_at};
ghost use Rattle.process.specs.Find.{find_access, walked};
ghost use Rattle.process.specs.Access.{raising, access_of};
ghost use Rattle.process.specs.Advance.{followed, advance_of};
ghost use Rattle.rules.specs.Table.{seen, touched};
ghost use Rattle.table.specs.Touch.{Touchable};

use process::finding::{ended, go_on, moved_to, node_at, reread, retry};
use process::joining::{link, raise, raise_found, rank_both};
use process::{Advanced, Errand, Head, Stage, Step, Task};
use word::{Node, Word};

// A read: the node that stands there.
#[tactic(auto, using(crate::proofs::Accesses::node_rank))]
fn load(table: &[Word], node: u16) -> Node
    requires { Touchable (map decode table.now) (Load node) }
    ensures { result ≡ seen (map decode table.now) (Load node) }
{
    word::decoded(table[usize::from(node)])
}

// A compare-and-swap: it writes only if the word equals the expected one, and tells the node that stood there.
#[tactic(auto, using(crate::proofs::Accesses::node_rank, crate::proofs::Accesses::swap_wrote, crate::proofs::Accesses::swap_failed))]
fn swap(table: &mut [Word], node: u16, expected: Node, new: Node) -> Node
    requires { Touchable (map decode table.old) (Cas node expected new) }
    ensures sees { result ≡ seen (map decode table.old) (Cas node expected new) }
    ensures leaves { table.new ≡ map encode (touched (map decode table.old) (Cas node expected new)) }
{
    let at = usize::from(node);
    let found = word::decoded(table[at]);
    if word::is_same(found, expected) {
        table[at] = Word::from(new);
    }
    found
}

// The swap that raises a root from this rank to one more, if it is still a root of this rank.
fn raise_root(table: &mut [Word], node: u16, rank: u8) -> Node
    requires touchable { Touchable (map decode table.old) (raising node rank) }
    requires rank_bound { rank + 1 < rank_limit }
    ensures sees { result ≡ seen (map decode table.old) (raising node rank) }
    ensures leaves { table.new ≡ map encode (touched (map decode table.old) (raising node rank)) }
{
    let higher = Node {
        rank: rank + 1,
        parent: node,
    };
    swap(table, node, Node { rank, parent: node }, higher)
}

// One step of a find on its errand: the one access, and where that leads.
#[tactic(auto, using(crate::proofs::Words::encode_words))]
fn walk(table: &mut [Word], task: Task, errand: Errand, step: Step, number: u32) -> Advanced
    requires { Touchable (map decode table.old) (find_access (node_at task errand) step) }
    ensures leads { result ≡ followed task errand number
        (walked (node_at task errand) (seen (map decode table.old) (find_access (node_at task errand) step)) step) }
    ensures leaves { table.new
        ≡ map encode (touched (map decode table.old) (find_access (node_at task errand) step)) }
{
    let node = node_at(task, errand);
    match step {
        Step::ReadNode => {
            let seen = load(table, node);
            if seen.parent == node {
                return ended(task, errand, number);
            }
            go_on(
                task,
                Stage::Find(errand, Step::ReadParent(seen.rank, seen.parent)),
            )
        }
        Step::ReadParent(rank, t) => {
            let seen = load(table, t);
            go_on(task, Stage::Find(errand, Step::Halve(rank, t, seen.parent)))
        }
        Step::Halve(rank, t, u) => {
            let expected = Node { rank, parent: t };
            let seen = swap(table, node, expected, Node { rank, parent: u });
            if word::is_same(seen, expected) {
                return go_on(task, Stage::Find(errand, Step::ReadAgain(t)));
            }
            retry(task, Stage::Find(errand, Step::ReadAgain(t)))
        }
        Step::ReadAgain(t) => {
            let seen = load(table, t);
            go_on(
                moved_to(task, errand, seen.parent),
                Stage::Find(errand, Step::ReadNode),
            )
        }
    }
}

// One grant of a head: the one access of its stage, and where that leads. In a grant no other function reads or writes
// the table. Its cases, and those of `walk`, are document 01's, in one function each: a grant's speed is theirs.
#[tactic(auto, using(crate::proofs::Words::round_trip), unfolding(process::specs::Access::access_of, process::specs::Advance::advance_of))]
pub fn stepped(table: &mut [Word], head: Head, number: u32) -> Advanced
    requires touchable { Touchable (map decode table.old) (access_of head) }
    requires raisable { Raisable head.stage }
    ensures leads { result ≡ advance_of head (seen (map decode table.old) (access_of head)) number }
    ensures leaves { table.new ≡ map encode (touched (map decode table.old) (access_of head)) }
{
    let task = head.task;
    let x = task.x;
    let y = task.y;
    match head.stage {
        Stage::Resting => go_on(task, Stage::Resting),
        Stage::Find(errand, step) => walk(table, task, errand, step, number),
        Stage::RereadX(point) => reread(task, point, load(table, x)),
        Stage::ReadRankX => {
            let seen = load(table, x);
            go_on(task, Stage::ReadRankY(seen.rank))
        }
        Stage::ReadRankY(rank) => {
            let seen = load(table, y);
            rank_both(task, rank, seen.rank)
        }
        Stage::Link(rank, equal) => {
            let seen = swap(table, x, Node { rank, parent: x }, Node { rank, parent: y });
            link(task, rank, equal, seen, number)
        }
        Stage::Raise(rank) => raise(task, rank, raise_root(table, y, rank)),
        Stage::ReadRankLinked => {
            let linked = load(table, x);
            go_on(task, Stage::RaiseFound(linked.rank))
        }
        Stage::RaiseFound(rank) => raise_found(task, rank, raise_root(table, y, rank)),
    }
}
