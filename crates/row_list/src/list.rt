// Whether a list of row numbers passes for a table of so many rows.

ghost use Rattle.std.specs.Prelude.{◌≡◌};
ghost use Rattle.row_list.specs.RowList.{list_passes, numbers_of};

// "a list of 1 to 16 row numbers".
pub const LIST_LIMIT: usize = 16;

// A list by value: the first numbers, as many as it counts. An array and a count, since there is no heap, and what holds one has an answer for every count.
#[derive(Clone, Copy)]
pub struct RowList {
    pub rows: [u32; LIST_LIMIT],
    pub count: usize,
}

impl RowList {
    // Its numbers; of a count over the limit as many as there are.
    pub fn numbers(&self) -> &[u32]
        ensures { result.now ≡ numbers_of self.now }
    {
        &self.rows[..self.count.min(LIST_LIMIT)]
    }
}

// "1 to 16 row numbers, strictly rising, each within the table", of any numbers at all.
#[tactic(auto, unfolding(crate::specs::RowList::list_passes, crate::specs::RowList::rises_within))]
pub fn passes(list: &[u32], rows: u32) -> bool
    ensures { result ≡ list_passes list.now rows }
{
    if list.is_empty() || LIST_LIMIT < list.len() {
        return false;
    }
    let mut least = 0;
    for &row in list {
        if row < least || rows <= row {
            return false;
        }
        least = row + 1;
    }
    true
}
