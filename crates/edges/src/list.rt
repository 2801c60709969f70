// A list of fixed room, without a heap: an array, of whose items the first ones count.
ghost use Rattle.std.specs.Prelude.{◌≡◌, ◌+◌, ◌<◌, ◌≤◌, List, [], ◌∷◌, ◌++◌, length, take, replicate, OnOk, OnErr};

use std::marker::Model;

// A list has no room for one more item.
#[derive(Clone, Copy, Debug, PartialEq, Eq)]
pub struct Full;

// A list of at most `N` items.
#[derive(Drop)]
pub struct List<T, const N: usize> {
    items: [T; N],
    length: usize,
}

// Clauses see the items.
impl<T, const N: usize> Model for List<T, N> {
    ghost Value = { List T };

    ghost view = { λ list. take list.length list.items };

    ghost invariant = { λ list. list.length ≤ N };
}

impl<T: Copy, const N: usize> List<T, N> {
    // No item yet; the filler stands where none is.
    pub fn new(filler: T) -> Self
        ensures { result ≡ [] }
    {
        List {
            items: [filler; N],
            length: 0,
        }
    }

    // Adds an item, where there is room for it.
    pub fn push(&mut self, item: T) -> Result<(), Full>
        ensures ok { OnOk result (self.new ≡ self.old ++ item ∷ []) }
        ensures full { OnErr result (length self.old ≡ N) }
        ensures err { OnErr result (self.new ≡ self.old) }
    {
        if self.length == N {
            return Err(Full);
        }
        self.items[self.length] = item;
        self.length += 1;
        Ok(())
    }

    // Adds some items, as far as there is room.
    #[tactic(auto, using(std::proofs::lemmas::List::at_drop_more))]
    pub fn extend_from_slice(&mut self, items: &[T]) -> Result<(), Full>
        ensures { OnOk result (self.new ≡ self.old ++ items.now) }
    {
        for &item in items {
            self.push(item)?;
        }
        Ok(())
    }

    // The items.
    pub fn as_slice(&self) -> &[T]
        ensures { result.now ≡ self.now }
    {
        &self.items[..self.length]
    }

    // The items, and the filler behind them.
    pub fn as_filled(&self) -> &[T; N]
        ensures { take (length self.now) result.now ≡ self.now }
    {
        &self.items
    }
}

impl<const N: usize> List<u8, N> {
    // Adds a byte that many times, where there is room for them all.
    pub fn push_copies(&mut self, byte: u8, count: usize) -> Result<(), Full>
        ensures ok { OnOk result (self.new ≡ self.old ++ replicate count byte) }
        ensures full { OnErr result (N < length self.old + count) }
        ensures err { OnErr result (self.new ≡ self.old) }
    {
        if N - self.length < count {
            return Err(Full);
        }
        let end = self.length + count;
        let room = &mut self.items[..];
        room[self.length..end].fill(byte);
        self.length = end;
        Ok(())
    }
}
