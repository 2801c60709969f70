// The longest enquiry known: about the two lowest nodes of one chain of 4,096. It prints the answer and the grants used.
// The two functions that call each other pass plain numbers, so that their calls compile to jumps: beyond the enquiry's
// array of 16 KiB, the longest enquiry needs no more stack than the shortest.
#![tactic(auto)]

ghost use Rattle.std.specs.Prelude.{◌≡◌, ◌≤◌, length};
ghost use Rattle.job.specs.Job.{most_nodes};
ghost use Rattle.chain.specs.Chain.{linked};

use job::MOST_NODES;
use query::Queried;
use word::Word;

// Fills a table: each word has rank 0 and the next node as its parent, and the last node is the root.
fn link_up(table: &mut [Word])
    requires { (1 ≤ length table.old) × (length table.old ≤ most_nodes) }
    ensures { table.new ≡ linked (length table.old) table.old }
{
    let last = table.len() - 1;
    table[last] = last as Word;
    for i in (0..last).rev() {
        table[i] = (i + 1) as Word;
    }
}

fn main(rt: HostRuntime) {
    let mut table = [0; MOST_NODES];
    link_up(&mut table);
    let Queried { answer, used, .. } = Queried::from(query::query(&mut table, 0, 1, 65535));
    // A line that can't be written is left out: what is printed is held against the stored line.
    let _ = println!(rt; "{answer} {used}");
}
