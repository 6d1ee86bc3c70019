// Whether several batches can be one.
ghost use Rattle.std.specs.Prelude.{◌≡◌, ◌<◌, ◌^◌, true};
ghost use Rattle.std.specs.List.{sum_by};

use batch::Batch;

/// Batches of fewer rows together can be joined.
const MANY_ROWS: u64 = 1 << 31;

/// Whether batches have fewer than 2^31 rows together, so that they can be joined.
pub fn are_few(runs: &[Batch]) -> bool
    ensures { result ≡ true → sum_by (λ run. run.rows) runs.now < 2 ^ 31 }
{
    let mut rows = 0;
    for run in runs {
        if run.rows >= MANY_ROWS - rows {
            return false;
        }
        rows += run.rows;
    }
    true
}
