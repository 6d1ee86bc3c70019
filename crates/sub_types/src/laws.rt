// The laws of streams: to glue pieces and then go over the rows is to go over each piece and then glue.
ghost use Rattle.std.specs.Prelude.{◌≡◌, List, ◌++◌, Result, map};
ghost use Rattle.std.specs.List.{flat_map};
ghost use Rattle.sub_types.specs.Stream.{Stream, glue, followed_by, each_stream, each};
ghost use Rattle.sub_types.specs.declared.fault.Fault.{Fault};

/// Streams can be glued in any groups.
pub fn glue_of_glued<R>()
    ensures groups { (a b : List (Stream R)) → glue (a ++ b) ≡ followed_by (glue a) (glue b) }
    ensures nested { (pieces : List (List (Stream R))) → glue (map glue pieces) ≡ glue (flat_map (λ piece. piece) pieces) }
{}

/// To go over the rows of glued pieces is to go over each piece.
pub fn each_stream_of_glued<R, S>()
    ensures { (f : R → Stream S) (pieces : List (Stream R)) → each_stream f (glue pieces) ≡ glue (map (each_stream f) pieces) }
{}

/// The same where each row gives rows or a fault.
pub fn each_of_glued<R, S>()
    ensures { (f : R → Result (List S) Fault) (pieces : List (Stream R)) → each f (glue pieces) ≡ glue (map (each f) pieces) }
{}
