// What is kept of many pieces, put together.
ghost use Rattle.std.specs.Prelude.{◌≡◌, ◌++◌, All, OnOk, length, map};
ghost use Rattle.plan_pipes.specs.Pieces.{merged_each};
ghost use Rattle.pipe_round.specs.Merged.{HaveSameRows, merged_all};

use hash_join::Marks;
use pipe_work::{Kept, Part};
use sub_types::NoMemory;

// Marks what either marks, step by step.
fn merge_each(marks: &mut [Marks], others: &[Marks])
    requires { map length others.now ≡ map length marks.old }
    ensures merged { marks.new ≡ merged_each marks.old others.now }
    ensures rows { map length marks.new ≡ map length marks.old }
{
    for at in 0..others.len() {
        marks[at].merge(&others[at]);
    }
}

/// Adds the parts in order, and marks what any of the pieces marks.
pub(crate) fn add_kept(
    kept: Vec<Kept>,
    marks: &mut [Marks],
    out: &mut Vec<Part>,
) -> Result<(), NoMemory>
    requires rows { All (HaveSameRows marks.old) kept.items }
    ensures parts { OnOk result (out.new.items ≡ out.old.items ++ map (λ one. one.part) kept.items) }
    ensures marks { OnOk result (marks.new ≡ merged_all marks.old (map (λ one. one.marks.items) kept.items)) }
    ensures rows { map length marks.new ≡ map length marks.old }
{
    for one in kept {
        let Kept { part, marks: own } = one;
        merge_each(marks, &own);
        out.push(part)?;
    }
    Ok(())
}
