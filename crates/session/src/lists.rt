// The lists of rows that are kept for collectings to come.
ghost use Rattle.std.specs.Prelude.{◌≡◌, ◌+◌, ◌≤◌, length, min, OnErr, OnOk};

use allocation::fill::{FillRow, LEAST_ROWS};
use std::alloc::{AllocError, Global};
use std::marker::Model;

// Each list is empty and has memory for every row. A contract sees how many there are.
#[derive(Drop)]
pub(crate) struct RowLists {
    lists: Vec<Vec<FillRow>>,
}

impl Model for RowLists {
    ghost use Rattle.std.specs.Prelude.{ℕ, vec_len};
    ghost use Rattle.std.specs.List.{All};
    ghost use Rattle.session.specs.Lists.{TakesEveryRow};

    ghost Value = { ℕ };

    ghost view = { λ l. vec_len l.lists };

    ghost invariant = { λ l. All TakesEveryRow l.lists.items };
}

impl RowLists {
    pub(crate) fn new(heap: Global) -> RowLists
        ensures { result ≡ 0 }
    {
        RowLists {
            lists: Vec::new(heap),
        }
    }

    pub(crate) fn len(&self) -> usize
        ensures { result ≡ self.now }
    {
        self.lists.len()
    }

    // Lets go of the lists past so many, and of the memory for their places.
    pub(crate) fn truncate(&mut self, lists: usize)
        ensures { self.new ≡ min lists self.old }
    {
        self.lists.truncate(lists);
        self.lists.shrink_to_fit();
    }

    // Takes memory for one list more.
    fn add(&mut self, heap: Global) -> Result<(), AllocError>
        ensures more { OnOk result (self.new ≡ self.old + 1) }
        ensures as_many { OnErr result (self.new ≡ self.old) }
    {
        let list = Vec::with_capacity(heap, LEAST_ROWS)?;
        self.lists.push(list)?;
        Ok(())
    }

    // Takes memory until there are so many lists, or more. Where it is wanting, there are as many as before.
    pub(crate) fn reserve(&mut self, heap: Global, lists: usize) -> Result<(), AllocError>
        ensures enough { OnOk result (lists ≤ self.new) }
        ensures no_fewer { self.old ≤ self.new }
        ensures as_many { OnErr result (self.new ≡ self.old) }
    {
        let before = self.lists.len();
        for _count in before..lists {
            if self.add(heap).is_err() {
                self.truncate(before);
                return Err(AllocError);
            }
        }
        Ok(())
    }

    // Takes out one of the lists, with these rows in it.
    pub(crate) fn take(&mut self, rows: &[FillRow]) -> Vec<FillRow>
        requires any { 1 ≤ self.old }
        requires few { length rows.now ≤ 129 }
        ensures rows { result.items ≡ rows.now }
        ensures one { self.new + 1 ≡ self.old }
    {
        let mut list = self.lists.pop().unwrap();
        list.extend_from_slice(rows).unwrap();
        list
    }
}
