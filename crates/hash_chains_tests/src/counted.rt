// Keys that count how often they are compared.
ghost use Rattle.std.specs.Prelude.{◌≡◌};
ghost use Rattle.row_keys.specs.Keys.{key_of};
ghost use Rattle.join_keys.specs.Keyed.{keyed_count, has_null, keyed_number, keyed_same, AreAlike};
ghost use Rattle.join_keys.specs.Laws as laws;

use hash_chains::{Keys, Numbering};
use join_keys::KeyedBatch;
use std::alloc::Global;
use std::cell::Cell;
use sub_types::NoMemory;

/// The keys of a batch, and how many comparisons were asked of them.
#[derive(Drop)]
pub(crate) struct Counted {
    pub(crate) rows: KeyedBatch,
    comparisons: Cell<u64>,
}

impl Counted {
    pub(crate) fn new(rows: KeyedBatch) -> Counted
        ensures { result.rows ≡ rows }
    {
        Counted {
            rows,
            comparisons: Cell::new(0),
        }
    }

    pub(crate) fn comparisons(&self) -> u64 {
        self.comparisons.get()
    }
}

impl Keys for Counted {
    ghost count = { λ keys. keyed_count keys.rows };

    ghost is_null = { λ keys. has_null keys.rows };

    ghost number = { λ keys. keyed_number keys.rows };

    ghost same = { λ keys others. keyed_same keys.rows others.rows };

    ghost Alike = { λ keys others. AreAlike keys.rows others.rows };

    fn count(&self) -> usize {
        self.rows.count()
    }

    fn is_null(&self, row: usize) -> bool {
        self.rows.is_null(row)
    }

    fn is_plain(&self) -> bool {
        self.rows.is_plain()
    }

    fn is_quick(&self) -> bool {
        self.rows.is_quick()
    }

    fn numbers(&self, alloc: Global, numbering: Numbering) -> Result<Vec<u64>, NoMemory> {
        self.rows.numbers(alloc, numbering)
    }

    fn number(&self, numbering: Numbering, row: usize) -> u64 {
        self.rows.number(numbering, row)
    }

    fn same(&self, row: usize, others: &Self, other: usize) -> bool {
        self.comparisons
            .set(self.comparisons.get().saturating_add(1));
        self.rows.same(row, &others.rows, other)
    }

    ghost same_here = { λ x y i j. laws.match_whole (key_of x.rows.columns.items x.rows.batch i) (key_of y.rows.columns.items y.rows.batch j) };

    ghost same_there = { λ x y i j. laws.match_whole_there (key_of x.rows.columns.items x.rows.batch i) (key_of y.rows.columns.items y.rows.batch j) };

    ghost same_number = { λ x y i j numbering. laws.match_number numbering (key_of x.rows.columns.items x.rows.batch i) (key_of y.rows.columns.items y.rows.batch j) };

    ghost same_again = { λ x y i j k. laws.match_again (key_of x.rows.columns.items x.rows.batch i) (key_of y.rows.columns.items y.rows.batch j) (key_of y.rows.columns.items y.rows.batch k) };

    ghost own = { λ x i low. laws.match_itself (key_of x.rows.columns.items x.rows.batch i) };
}
