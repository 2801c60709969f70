// The counter enquiry of document 01: a same-set alone on a lent table, with a budget of grants.
#![tactic(auto)]

ghost use Rattle.std.specs.Prelude.{◌≡◌, map, ◌-◌, ◌/◌, ◌<◌, ◌≤◌, length, take};
ghost use Rattle.std.proofs.lemmas.List.Edits.{sets};
ghost use Rattle.word.specs.Word.{rank_of, decode, encode, most_rank};
ghost use Rattle.std.specs.declared.result.Result.TheVariants.{Ok};
ghost use Rattle.job.specs.Job.{most_nodes};
ghost use Rattle.job.specs.Refusal.{told};
ghost use Rattle.process.specs.declared.Access.TheVariants.{Cas};
ghost use Rattle.rules.specs.Table.{fresh_from, touched};
ghost use Rattle.table.specs.Admitted.{Admitted};
ghost use Rattle.query.specs.Query.{refusal, steps, queried};
ghost use Rattle.query.specs.Told.{queried_told};
ghost use Rattle.query.specs.Numbers.{looking, moving, Ready, Lower, packed as Numbers·packed, told as Numbers·told, ended};
ghost use Rattle.query.specs.Faithful.{Faithful};

use job::{Answer, MOST_NODES, Refusal};
use table::admission::check_table;
use word::{Node, Word};

// The array that an enquiry is made on: as many words as the longest table has.
type Nodes = [Word; MOST_NODES];

// What an enquiry that is not refused answers: yes, no or unfinished, and the grants used.
#[derive(Clone, Copy, Debug, PartialEq, Eq)]
pub struct Enquiry {
    pub answer: Answer,
    pub used: u32,
}

// What a host is told: 0, the enquiry's answer (3 yes, 4 no, 0 spent) and the grants used; or a refusal's number and zeros.
#[repr(C)]
#[derive(Clone, Copy, Debug, PartialEq, Eq)]
pub struct Queried {
    pub number: u32,
    pub answer: u32,
    pub used: u32,
}

impl From<Result<Enquiry, Refusal>> for Queried {
    ghost from_gives = { λ answer queried. queried ≡ queried_told answer };

    fn from(answer: Result<Enquiry, Refusal>) -> Queried {
        match answer {
            Ok(enquiry) => Queried {
                number: 0,
                answer: u32::from(enquiry.answer),
                used: enquiry.used,
            },
            Err(refusal) => Queried {
                number: u32::from(refusal),
                answer: 0,
                used: 0,
            },
        }
    }
}

// Checks the places of an enquiry, and then its table.
#[tactic(auto, unfolding(crate::specs::Query::refusal))]
fn check_enquiry(table: &[Word], x: u32, y: u32) -> Result<(), Refusal>
    ensures { told result ≡ refusal table.now x y }
{
    let nodes = table.len();
    if nodes <= (x as usize) || nodes <= (y as usize) {
        return Err(Refusal::Enquiry);
    }
    check_table(table)
}

// The end of an enquiry as one number: the answer's number and the grants used. One number comes out of `look` and `move_on`
// where an `Enquiry` would not do: so their calls of each other compile to jumps, and no enquiry takes more stack than another.
fn packed(answer: Answer, used: u32) -> u32
    requires { used ≤ 65535 }
    ensures { result ≡ Numbers·packed answer used }
{
    u32::from(answer) * 65536 + used
}

// The answer and the grants used, read of that number again.
fn read_end(end: u32) -> Enquiry
    requires { end / 65536 < 5 }
    ensures { queried_told (Ok result) ≡ Numbers·told end }
{
    let answer = match end / 65536 {
        0 => Answer::Unfinished,
        1 => Answer::Joined,
        2 => Answer::Together,
        3 => Answer::Yes,
        _ => Answer::No,
    };
    Enquiry {
        answer,
        used: end % 65536,
    }
}

// A find's swap, from the word read to the same rank with the parent `above`.
fn halve(table: &mut Nodes, node: u32, word: Word, above: u32)
    requires admitted { Admitted most_nodes (map decode table.old) }
    requires node_lt_most_nodes { (node < most_nodes) × (rank_of word ≤ most_rank) × (above < most_nodes) }
    ensures { table.new ≡ map encode (touched (map decode table.old)
        (Cas node (decode word) (record { rank = rank_of word; parent = above }))) }
{
    if table[node as usize] == word {
        table[node as usize] = Word::from(Node {
            rank: word::rank(word) as u8,
            parent: above as u16,
        });
    }
}

// Looks at a node: one grant, after which the enquiry moves on from it, or its find ends there. The find from x hands on
// to the find from y; that one compares, and where the two differ, the next grant reads x's word again. (`from_y` is
// document 01's form: the two functions pass plain numbers and a flag.)
#[cycle(look_move_on)]
fn look(table: &mut Nodes, node: u32, other: u32, from_y: bool, used: u32, left: u32) -> u32
    requires { Ready table.old node other used left }
    ensures { ended result table.new
        ≡ steps left used (looking node other from_y) (map decode table.old) }
{
    if left == 0 {
        return packed(Answer::Unfinished, used);
    }
    let word = table[node as usize];
    if word::parent(word) != node {
        return move_on(table, node, other, from_y, word, used + 1, left - 1);
    }
    if !from_y {
        return look(table, other, node, true, used + 1, left - 1);
    }
    if other == node {
        return packed(Answer::Yes, used + 1);
    }
    if left == 1 {
        return packed(Answer::Unfinished, used + 1);
    }
    if word::parent(table[other as usize]) == other {
        return packed(Answer::No, used + 2);
    }
    look(table, other, node, false, used + 2, left - 2)
}

// Moves on from a node whose word was read and is no root's: reads its parent's word, swaps, reads the parent's word
// again, and looks at the node that it names. The grants may end before each of the three.
#[cycle(look_move_on)]
fn move_on(
    table: &mut Nodes,
    node: u32,
    other: u32,
    from_y: bool,
    word: Word,
    used: u32,
    left: u32,
) -> u32
    requires ready { Ready table.old node other used left }
    requires lower { Lower table.old node word }
    ensures { ended result table.new
        ≡ steps left used (moving node other from_y (decode word)) (map decode table.old) }
{
    if left == 0 {
        return packed(Answer::Unfinished, used);
    }
    let parent = word::parent(word);
    let above = word::parent(table[parent as usize]);
    if left == 1 {
        return packed(Answer::Unfinished, used + 1);
    }
    halve(table, node, word, above);
    if left == 2 {
        return packed(Answer::Unfinished, used + 2);
    }
    let next = word::parent(table[parent as usize]);
    look(table, next, other, from_y, used + 3, left - 3)
}

// Copies a table's words to the front of the array.
fn copy_in(nodes: &mut Nodes, table: &[Word])
    requires { length table.now ≤ most_nodes }
    ensures { nodes.new ≡ sets nodes.old 0 table.now }
{
    nodes[..table.len()].copy_from_slice(table);
}

// Makes each node of the array, from one on, a root.
#[tactic(auto, using(crate::proofs::Copies::padding_on, crate::proofs::Copies::padding_done))]
fn pad(nodes: &mut Nodes, from: usize)
    requires { from ≤ most_nodes }
    ensures { nodes.new ≡ sets nodes.old from (map encode (fresh_from from (most_nodes - from))) }
{
    for i in from..MOST_NODES {
        nodes[i] = i as Word;
    }
}

// Copies the array's front back to the table.
fn copy_out(table: &mut [Word], nodes: &Nodes)
    requires { (length table.old ≤ most_nodes) × (length nodes.now ≡ most_nodes) }
    ensures { table.new ≡ take (length table.old) nodes.now }
{
    table.copy_from_slice(&nodes[..table.len()]);
}

// Makes the enquiry on an array of its own, and gives the words back.
fn enquire(table: &mut [Word], x: u32, y: u32, budget: u16) -> u32
    requires { refusal table.old x y ≡ 0 }
    ensures { ended result table.new ≡ queried table.old x y budget }
{
    let mut nodes = [0; MOST_NODES];
    copy_in(&mut nodes, table);
    pad(&mut nodes, table.len());
    let end = look(&mut nodes, x, y, false, 0, u32::from(budget));
    copy_out(table, &nodes);
    end
}

// Makes an enquiry: are x and y in one set, within a budget of grants? Refused, it writes nothing. Whatever the budget,
// the sets stay, and yes and no are right.
pub fn query(table: &mut [Word], x: u32, y: u32, budget: u16) -> Result<Enquiry, Refusal>
    ensures exact { record { queried = queried_told result; table = table.new } ≡ queried table.old x y budget }
    ensures faithful { (queried_told result).number ≡ 0
        → Faithful table.old x y budget (record { queried = queried_told result; table = table.new }) }
{
    check_enquiry(table, x, y)?;
    Ok(read_end(enquire(table, x, y, budget)))
}
