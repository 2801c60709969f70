// The groups of an admitted table, gathered in one pass over its places, and the row of each.
ghost use Rattle.std.specs.Prelude.{◌≡◌, map, ◌<◌, length, get_or};
ghost use Rattle.word.specs.Word.{decode};
ghost use Rattle.page.specs.Rows.{no_row, group_rows};
ghost use Rattle.page.specs.Gathered.{Gathered};

use crate::Row;
use job::MOST_NODES;
use table::admission::AdmittedTable;

// The lowest place of a group, and its root.
#[derive(Clone, Copy, Debug, PartialEq, Eq)]
pub struct Group {
    pub lowest: u16,
    pub root: u16,
}

// The groups in the order of their lowest places. Sizes stand by root, so that a place finds its group's at once.
#[derive(Clone, Copy)]
pub struct Groups {
    pub count: usize,
    pub groups: [Group; MOST_NODES],
    // how many places lead to each root
    pub size: [u16; MOST_NODES],
}

// The groups of an admitted table: a place whose root no place before it has is the lowest of its group.
pub fn gathered(table: AdmittedTable) -> Groups
    ensures { Gathered (map decode table.entry.words.now) (length table.entry.words.now) result }
{
    let mut groups = [Group { lowest: 0, root: 0 }; MOST_NODES];
    let mut size = [0u16; MOST_NODES];
    let mut count = 0;
    for i in 0..table.words.len() {
        let root = table.root_of(i as u32) as usize;
        let before = size[root];
        size[root] = before + 1;
        if before != 0 {
            continue;
        }
        groups[count] = Group {
            lowest: i as u16,
            root: root as u16,
        };
        count += 1;
    }
    Groups {
        count,
        groups,
        size,
    }
}

// Row k of an admitted table, from its groups.
pub fn row_at(table: AdmittedTable, groups: &Groups, k: usize) -> Row
    requires gathered { Gathered (map decode table.words.now) (length table.words.now) groups.now }
    requires k_in_bounds { k < groups.now.count }
    ensures { result ≡ get_or (group_rows (map decode table.entry.words.now)) k no_row }
{
    let Group { lowest, root } = groups.groups[k];
    let place = usize::from(root);
    Row {
        lowest: u32::from(lowest),
        size: u32::from(groups.size[place]),
        root: u32::from(root),
        rank: word::rank(table.words[place]),
    }
}
