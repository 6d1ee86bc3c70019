//! The rows that the demo's plan denotes over its tables: no fault ends them, and there is one for each region at most.
ghost use Rattle.std.specs.Prelude.{◌≡◌, ◌≤◌, ◌^◌, ℕ, None, length};
ghost use Rattle.std.specs.List.{AllByRecursion};
ghost use Rattle.plan_denote.specs.Denote.{Tables};
ghost use Rattle.plan_denote.specs.Subqueries.{denote_plan};
ghost use Rattle.gen_data.specs.Rows.{MAX_NUMBER};
ghost use Rattle.gen_data.specs.Checked.{demo_plan};
ghost use Rattle.gen_data.specs.Summary.{demo_tables, demo_rows, IsSummaryRow};

/// Over the demo's tables the demo's plan ends in no fault: each row passes the tests of its types, no match and no key faults, and
/// the quantities of a region sum to less than 2^63. It gives one row for each region that has a line, of which there are three at
/// most: its name, their sum or null, and their count. Tables that are the demo's at the two read relations are as good.
pub fn demo_denotes_no_fault()
    ensures no_fault { (number : ℕ) → number ≤ MAX_NUMBER → (denote_plan (demo_tables number) demo_plan).end ≡ None }
    ensures few { (number : ℕ) → number ≤ MAX_NUMBER → length (demo_rows number) ≤ 2 ^ 36 }
    ensures regions { (number : ℕ) → number ≤ MAX_NUMBER → length (demo_rows number) ≤ 3 }
    ensures shape { (number : ℕ) → number ≤ MAX_NUMBER → AllByRecursion IsSummaryRow (demo_rows number) }
    ensures same { (number : ℕ) (tables : Tables) → tables 3 ≡ demo_tables number 3 → tables 4 ≡ demo_tables number 4 → denote_plan tables demo_plan ≡ denote_plan (demo_tables number) demo_plan }
{}
