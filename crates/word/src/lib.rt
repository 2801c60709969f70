// The word of a node: its rank and its parent in 32 bits. Only this crate knows the layout.
#![tactic(auto)]

ghost use Rattle.std.specs.Prelude.{◌≡◌, ◌<◌};
ghost use Rattle.word.specs.Word.{rank_of, parent_of, decode, encode, same, before, rank_limit};

// A table's word.
pub type Word = u32;

// The highest rank that a node of a table can have.
pub const MOST_RANK: u32 = 12;

// What a node's word says: its rank, and its parent (itself for a root).
#[derive(Clone, Copy, Debug, PartialEq, Eq)]
pub struct Node {
    pub rank: u8,
    pub parent: u16,
}

// The rank in a word.
#[tactic(auto, unfolding(crate::specs::Word::rank_of))]
pub fn rank(word: Word) -> u32
    ensures { result ≡ rank_of word }
{
    word / 65536
}

// The parent in a word.
#[tactic(auto, unfolding(crate::specs::Word::parent_of))]
pub fn parent(word: Word) -> u32
    ensures { result ≡ parent_of word }
{
    word % 65536
}

// The node of a word whose rank is within the limit.
#[tactic(auto, unfolding(crate::specs::Word::rank_of, crate::specs::Word::parent_of))]
pub fn decoded(word: Word) -> Node
    requires { rank_of word < rank_limit }
    ensures { result ≡ decode word }
{
    Node {
        rank: (word / 65536) as u8,
        parent: (word % 65536) as u16,
    }
}

// The word of a node.
impl From<Node> for Word {
    ghost from_gives = { λ node word. word ≡ encode node };

    #[tactic(auto, unfolding(crate::specs::Word::encode))]
    fn from(node: Node) -> Word {
        Word::from(node.rank) * 65536 + Word::from(node.parent)
    }
}

// Whether two nodes have the same rank and the same parent: what a compare-and-swap compares.
pub fn is_same(a: Node, b: Node) -> bool
    ensures { result ≡ same a b }
{
    a == b
}

// Whether node a of rank a_rank comes before node b of rank b_rank: the order of nodes.
pub fn stands_before(a_rank: u32, a: u32, b_rank: u32, b: u32) -> bool
    ensures { result ≡ before a_rank a b_rank b }
{
    (a_rank, a) < (b_rank, b)
}

// The same order on a rank and a node as a head has them.
pub fn comes_before(a_rank: u8, a: u16, b_rank: u8, b: u16) -> bool
    ensures { result ≡ before a_rank a b_rank b }
{
    stands_before(
        u32::from(a_rank),
        u32::from(a),
        u32::from(b_rank),
        u32::from(b),
    )
}
