// The laws of fetches over an input in pieces.
ghost use Rattle.std.specs.Prelude.{◌≡◌, ℕ, List, Option, length};
ghost use Rattle.sub_types.specs.Stream.{Stream, followed_by, glue};
ghost use Rattle.plan_denote.specs.Rows.{Row};
ghost use Rattle.plan_denote.specs.Fetch.{fetched};
ghost use Rattle.plan_pipes.specs.FetchPieces.{offset_after, count_after, fetched_pieces};

/// A fetch from a stream and then the rest is the fetch from the stream, and then from the rest what is still to be taken.
pub fn fetch_of_glued()
    ensures { (offset : ℕ) (count : Option ℕ) (s rest : Stream Row) → fetched offset count (followed_by s rest) ≡ followed_by (fetched offset count s) (fetched (offset_after offset (length s.rows)) (count_after offset count (length s.rows)) rest) }
{}

/// A fetch from glued pieces takes from piece after piece.
pub fn fetch_of_pieces()
    ensures { (offset : ℕ) (count : Option ℕ) (pieces : List (Stream Row)) → fetched offset count (glue pieces) ≡ glue (fetched_pieces offset count pieces) }
{}
