// The laws of pipelines that run in order, whatever a stream is.
ghost use Rattle.std.specs.Prelude.{◌≡◌, ℕ, ◌<◌, List, [], ◌∷◌, ◌++◌, length, slice_index_or};
ghost use Rattle.plan_pipes.specs.declared.pipe.Pipe.{Pipe};
ghost use Rattle.plan_pipes.specs.Run.{Meaning, run, stream_at, flow, built};

/// What a pipeline gathered stays, whatever runs behind it. There is one stream for each pipeline.
pub fn earlier_streams_stay<D, T>()
    ensures one_each { (m : Meaning D T) (pipes : List Pipe) → length (run m pipes).streams ≡ length pipes }
    ensures stays { (m : Meaning D T) (pipes more : List Pipe) (at : ℕ) → at < length pipes → stream_at m (run m (pipes ++ more)).streams at ≡ stream_at m (run m pipes).streams at }
{}

/// A table stays, whatever runs behind the pipeline that built it.
pub fn earlier_tables_stay<D, T>()
    ensures { (m : Meaning D T) (pipes more : List Pipe) (at : ℕ) (none : T) → at < length (run m pipes).tables → slice_index_or (run m (pipes ++ more)).tables at none ≡ slice_index_or (run m pipes).tables at none }
{}

/// The last pipeline gathers what its feed gives, through its steps, over what the earlier ones gathered and built.
pub fn last_stream<D, T>()
    ensures { (m : Meaning D T) (pipes : List Pipe) (pipe : Pipe) → stream_at m (run m (pipes ++ pipe ∷ [])).streams (length pipes) ≡ m.gather pipe.breaker (flow m (run m pipes) pipe.feed pipe.steps) }
{}

/// The tables after the last pipeline are the earlier ones, and the one that it builds, if it builds one.
pub fn last_table<D, T>()
    ensures { (m : Meaning D T) (pipes : List Pipe) (pipe : Pipe) → (run m (pipes ++ pipe ∷ [])).tables ≡ (run m pipes).tables ++ built m pipe.breaker (flow m (run m pipes) pipe.feed pipe.steps) }
{}
