// The rows that are taken are marked, class by class.
ghost use Rattle.std.specs.Prelude.{◌≡◌, ◌<◌, ℕ, Bool, All, length, map, replicate, slice_index_or, slice_set, nat_lt, if◌then◌else◌, IfOk};
ghost use Rattle.std.specs.List.{fold, range_with_len};
ghost use Rattle.hash_chains.specs.First.{rows_where};
ghost use Rattle.set_places.specs.declared.marks.Mark.TheVariants.{Open};
ghost use Rattle.set_places.specs.Marks.{is_open as spec_is_open, is_taken as spec_is_taken, mark_of};
ghost use Rattle.set_places.specs.Taken as spec;

use crate::counts::{allowed, leading};
use plan_typed::SetOp;
use std::alloc::Global;
use sub_types::NoMemory;

/// What is known of a row.
#[derive(Clone, Copy, Debug, PartialEq, Eq)]
pub(crate) enum Mark {
    /// No row like it was looked at.
    Open,
    Passed,
    Taken,
}

impl Mark {
    pub(crate) fn is_open(self) -> bool
        ensures { result ≡ spec_is_open self }
    {
        match self {
            Mark::Open => true,
            Mark::Passed | Mark::Taken => false,
        }
    }

    fn is_taken(self) -> bool
        ensures { result ≡ spec_is_taken self }
    {
        match self {
            Mark::Taken => true,
            Mark::Open | Mark::Passed => false,
        }
    }
}

/// So many open marks.
pub(crate) fn open_marks(alloc: Global, n: usize) -> Result<Vec<Mark>, NoMemory>
    ensures { IfOk result (λ marks. marks.items ≡ replicate n Open) }
{
    Ok(vec![in alloc; Mark::Open; n]?)
}

/// Marks the rows of the first input that are alike: the first so many are taken, and the others passed.
pub(crate) fn mark_alike(
    op: SetOp,
    alike: &[u64],
    first: u64,
    others: &[u64],
    marks: &mut Vec<Mark>,
)
    requires { length marks.old.items ≡ first }
    ensures count { length marks.new.items ≡ first }
    ensures marks { (test : ℕ → Bool) (count : ℕ) → alike.now ≡ rows_where test count → spec.AreEnds first others.now count → marks.new.items ≡ map (λ row. if test row then mark_of (nat_lt (spec.times test 0 row) (spec.allowed op (spec.times test 0 first) (spec.times_each test first others.now))) else slice_index_or marks.old.items row Open) (range_with_len 0 first) }
{
    mark_rows(op, alike, first, others, marks);
}

// The same of a slice.
fn mark_rows(op: SetOp, alike: &[u64], first: u64, others: &[u64], marks: &mut [Mark])
    requires { length marks.old ≡ first }
    ensures count { length marks.new ≡ first }
    ensures marks { (test : ℕ → Bool) (count : ℕ) → alike.now ≡ rows_where test count → spec.AreEnds first others.now count → marks.new ≡ map (λ row. if test row then mark_of (nat_lt (spec.times test 0 row) (spec.allowed op (spec.times test 0 first) (spec.times_each test first others.now))) else slice_index_or marks.old row Open) (range_with_len 0 first) }
{
    let many = leading(alike, 0, first);
    let taken = allowed(op, alike, first, many, others).min(many);
    mark_all(marks, &alike[..many], Mark::Passed);
    mark_all(marks, &alike[..taken], Mark::Taken);
}

fn mark_all(marks: &mut [Mark], rows: &[u64], mark: Mark)
    requires { All (λ row. row < length marks.old) rows.now }
    ensures { marks.new ≡ fold (λ all row. slice_set all row mark) marks.old rows.now }
{
    for row in rows {
        marks[*row as usize] = mark;
    }
}

/// The rows that are marked as taken.
pub(crate) fn rows_taken(alloc: Global, marks: &[Mark]) -> Result<Vec<u64>, NoMemory>
    ensures { IfOk result (λ rows. rows.items ≡ rows_where (λ row. spec_is_taken (slice_index_or marks.now row Open)) (length marks.now)) }
{
    let mut rows = Vec::new(alloc);
    for row in 0..marks.len() {
        if marks[row].is_taken() {
            rows.push(row as u64)?;
        }
    }
    Ok(rows)
}
