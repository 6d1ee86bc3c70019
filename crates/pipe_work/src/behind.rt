// What comes behind the pieces of a pipeline's input.
use crate::keeping::parts_of;
use crate::pipe::PipeSteps;
use batch::Piece;
use hash_join::Marks;
use pipe_parts::Part;
use pipe_steps::{finish, marks_of};
use std::alloc::Global;
use sub_types::NoMemory;

impl<'a> PipeSteps<'a> {
    ghost use Rattle.std.specs.Prelude.{◌≡◌, [], All, IfOk, map};
    ghost use Rattle.sub_types.specs.Stream.{glue};
    ghost use Rattle.batch.specs.BatchRows.{stream_of_piece};
    ghost use Rattle.plan_pipes.specs.Pieces.{finished, marks_through};
    ghost use Rattle.plan_pipes.specs.Run.{through};
    ghost use Rattle.pipe_types.specs.Exact.{exact_steps};
    ghost use Rattle.pipe_steps.specs.Behind.{IsStored};
    ghost use Rattle.pipe_steps.specs.Marked.{HaveMarks};
    ghost use Rattle.pipe_steps.specs.Tables.{joins_of, tables_seen};
    ghost use Rattle.pipe_parts.specs.Parts.{ArePartsOf};

    /// Marks for each step, with none set.
    pub fn no_marks(&self, alloc: Global) -> Result<Vec<Marks>, NoMemory>
        ensures none { IfOk result (λ marks. marks.items ≡ marks_through (tables_seen self.now.tables) self.now.steps []) }
        ensures rows { IfOk result (λ marks. HaveMarks (tables_seen self.now.tables) self.now.steps marks.items) }
    {
        let marks = marks_of(alloc, self.steps, self.tables)?;
        Ok(marks)
    }

    /// What is kept of what comes behind the last piece, by the marks of all pieces.
    pub fn last_parts(&self, alloc: Global, marks: &mut [Marks]) -> Result<Vec<Part>, NoMemory>
        requires { HaveMarks (tables_seen self.now.tables) self.now.steps marks.old }
        ensures { IfOk result (λ parts. ArePartsOf self.now.breaker (through exact_steps (joins_of self.now.tables) self.now.steps self.now.types)
            (glue (finished (tables_seen self.now.tables) self.now.steps marks.old)) parts.items) }
    {
        let last = self.last_pieces(alloc, marks)?;
        let parts = parts_of(alloc, self, last)?;
        Ok(parts)
    }

    // The pieces that come behind the last.
    fn last_pieces(&self, alloc: Global, marks: &mut [Marks]) -> Result<Vec<Piece>, NoMemory>
        requires { HaveMarks (tables_seen self.now.tables) self.now.steps marks.old }
        ensures stream { IfOk result (λ out. glue (map stream_of_piece out.items) ≡ glue (finished (tables_seen self.now.tables) self.now.steps marks.old)) }
        ensures stored { IfOk result (λ out. All (IsStored (through exact_steps (joins_of self.now.tables) self.now.steps self.now.types)) out.items) }
    {
        let last = finish(alloc, self.steps, self.tables, self.types, marks)?;
        Ok(last)
    }
}
