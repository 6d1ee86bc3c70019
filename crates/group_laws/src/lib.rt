//! Laws of aggregates: what is known of some rows, merged with what is known of the rows behind them, is what is known of all of
//! them, wherever the rows are cut, and the rows of an aggregate are made of it. `Merged`, `SetStates` and `States` define what is
//! known and how it is merged, over the aggregates of `plan_denote`; `Columns` says how rows are evaluated column by column.
#![tactic(auto)]

ghost use Rattle.std.specs.Prelude.{◌≡◌, ◌++◌, [], ℕ, List, Bool, map, length};
ghost use Rattle.sub_types.specs.Stream.{Stream, rows_alone, followed_by, glue};
ghost use Rattle.sub_types.specs.declared.value.Value.{Value};
ghost use Rattle.plan_denote.specs.Rows.{Row, Formula};
ghost use Rattle.plan_denote.specs.Tally.{Tally, not_null, tally_of};
ghost use Rattle.plan_denote.specs.Aggregate.{Measure, Entry, summary, rows_of_summary, aggregated};
ghost use Rattle.plan_denote.specs.GroupSets.{AnyMeasure, grouping_sets};
ghost use Rattle.group_laws.specs.Columns.{entries_of, stream_at};
ghost use Rattle.group_laws.specs.Merged.{tallies_merged, merged};
ghost use Rattle.group_laws.specs.Pieces.{entries_in, known_of_input, sets_of_input};
ghost use Rattle.group_laws.specs.SetStates.{known_of, knowns_merged, sets_summary, sets_merged, rows_of_sets_summary};
ghost use Rattle.group_laws.specs.States.{states_merged, merged_in_order, rows_of_state};

/// The tally of values and of the values behind them is their tallies merged.
pub fn tallies_merge()
    ensures { (values later : List Value) → tally_of (not_null (values ++ later)) ≡ tallies_merged (tally_of (not_null values)) (tally_of (not_null later)) }
{}

/// Tallies are merged in any bracketing.
pub fn tallies_merge_in_any_bracketing()
    ensures { (a b c : Tally) → tallies_merged (tallies_merged a b) c ≡ tallies_merged a (tallies_merged b c) }
{}

/// What is kept for a measure is merged as tallies are, also of distinct values: those of both, each at its first appearance.
pub fn kept_values_merge()
    ensures { (distinct : Bool) (values later : List Value) → known_of distinct (values ++ later) ≡ knowns_merged (known_of distinct values) (known_of distinct later) }
{}

/// The summary of rows and of the rows behind them is their summaries merged: the groups in order of first appearance, and what is
/// known of each.
pub fn summaries_merge()
    ensures { (groups : List Formula) (measures : List Measure) (entries later : List Entry) → summary groups measures (entries ++ later) ≡ merged (summary groups measures entries) (summary groups measures later) }
{}

/// The same for several sets of groups.
pub fn summaries_of_sets_merge()
    ensures { (width : ℕ) (sets : List (List ℕ)) (measures : List AnyMeasure) (entries later : List Entry) → sets_summary width sets measures (entries ++ later) ≡ sets_merged (sets_summary width sets measures entries) (sets_summary width sets measures later) }
{}

/// What is known of an input is what is known of its parts, merged: its summary, or the first fault.
pub fn inputs_merge()
    ensures groups { (number : ℕ) (groups : List Formula) (measures : List Measure) (input later : Stream Row) → known_of_input number groups measures (followed_by input later) ≡ states_merged merged (known_of_input number groups measures input) (known_of_input number groups measures later) }
    ensures sets { (number : ℕ) (groups : List Formula) (sets : List (List ℕ)) (measures : List AnyMeasure) (input later : Stream Row) → sets_of_input number groups sets measures (followed_by input later) ≡ states_merged sets_merged (sets_of_input number groups sets measures input) (sets_of_input number groups sets measures later) }
{}

/// The rows of an aggregate, by what is known of its input.
pub fn aggregates_are_summaries()
    ensures groups { (number : ℕ) (groups : List Formula) (measures : List Measure) (input : Stream Row) → aggregated number groups measures input ≡ rows_of_state (rows_of_summary number measures) (known_of_input number groups measures input) }
    ensures sets { (number : ℕ) (groups : List Formula) (sets : List (List ℕ)) (measures : List AnyMeasure) (input : Stream Row) → grouping_sets number groups sets measures input ≡ rows_of_state (rows_of_sets_summary number sets measures) (sets_of_input number groups sets measures input) }
{}

/// The rows of an aggregate of an input in pieces, wherever it is cut.
pub fn aggregates_of_pieces()
    ensures groups { (number : ℕ) (groups : List Formula) (measures : List Measure) (pieces : List (Stream Row)) → aggregated number groups measures (glue pieces) ≡ rows_of_state (rows_of_summary number measures) (merged_in_order merged (summary groups measures []) (map (known_of_input number groups measures) pieces)) }
    ensures sets { (number : ℕ) (groups : List Formula) (sets : List (List ℕ)) (measures : List AnyMeasure) (pieces : List (Stream Row)) → grouping_sets number groups sets measures (glue pieces) ≡ rows_of_state (rows_of_sets_summary number sets measures) (merged_in_order sets_merged (sets_summary (length groups) sets measures []) (map (sets_of_input number groups sets measures) pieces)) }
{}

/// Keys and what the measures take, evaluated column by column, are those of the rows one by one: the first fault is that of the
/// least row, and on it that of the first expression.
pub fn columns_are_rows()
    ensures { (number : ℕ) (groups : List Formula) (measures : List Measure) (rows : List Row) → entries_in number groups measures (rows_alone rows) ≡ stream_at number (entries_of groups measures rows) }
{}
