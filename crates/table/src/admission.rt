// A table that a host lends: whether it is admitted, and the walk to a root in one that is.
ghost use Rattle.std.specs.Prelude.{IfOk, ◌≡◌, map, ◌<◌, ◌≤◌, length};
ghost use Rattle.word.specs.Word.{decode};
ghost use Rattle.job.specs.Job.{most_nodes};
ghost use Rattle.job.specs.Refusal.{told};
ghost use Rattle.forest.specs.Forest.{Leads};
ghost use Rattle.rules.specs.Table.{parent};
ghost use Rattle.table.specs.Admitted.{is_faulty, any_faulty, table_refusal, Admitted};

use job::{MOST_NODES, Refusal};
use word::{MOST_RANK, Word};

// Whether the word of node i cannot stand in this table.
fn is_faulty(table: &[Word], i: u32) -> bool
    requires { i < length table.now }
    ensures { result ≡ is_faulty table.now i }
{
    let word = table[i as usize];
    let parent = word::parent(word);
    table.len() <= (parent as usize)
        || MOST_RANK < word::rank(word)
        || word::stands_before(
            word::rank(table[parent as usize]),
            parent,
            word::rank(word),
            i,
        )
}

// Whether any word cannot stand in this table.
#[tactic(auto, using(crate::proofs::Admitted::passed_over))]
fn any_faulty(table: &[Word]) -> bool
    requires { length table.now ≤ most_nodes }
    ensures { result ≡ any_faulty table.now (length table.now) }
{
    for i in (0..table.len() as u32).rev() {
        if is_faulty(table, i) {
            return true;
        }
    }
    false
}

// Checks the length of a table, and then its words.
pub fn check_table(table: &[Word]) -> Result<(), Refusal>
    ensures { told result ≡ table_refusal table.now }
{
    let nodes = table.len();
    if nodes == 0 || MOST_NODES < nodes {
        return Err(Refusal::Enquiry);
    }
    if any_faulty(table) {
        return Err(Refusal::Word);
    }
    Ok(())
}

// A table that is admitted.
#[derive(Clone, Copy)]
pub struct AdmittedTable<'a> {
    pub words: &'a [Word],
    ghost admitted: { Admitted (length words.now) (map decode words.now) },
}

impl<'a> AdmittedTable<'a> {
    // Checks a table: any words.
    #[tactic(auto, using(crate::proofs::Admitted::table_admitted))]
    pub fn check(words: &'a [Word]) -> Result<AdmittedTable<'a>, Refusal>
        ensures told { told result ≡ table_refusal words.now }
        ensures same { IfOk result (λ table. table.words.now ≡ words.now) }
    {
        check_table(words)?;
        Ok(AdmittedTable { words })
    }

    // The root that a node leads to, by a plain walk: a turn goes to the parent, and no index is counted.
    #[tactic(auto, using(crate::proofs::Roots::walk_ends, crate::proofs::Roots::walk_falls))]
    pub fn root_of(self, node: u32) -> u32
        requires { node < length self.words.now }
        ensures { Leads (parent (map decode self.entry.words.now)) node result }
    {
        let mut at = node;
        let mut above = word::parent(self.words[at as usize]);
        while above != at {
            at = above;
            above = word::parent(self.words[at as usize]);
        }
        at
    }
}
