// The messages of a repeated field, read one after the other.
ghost use Rattle.std.specs.Prelude.{◌≡◌};

use crate::blocks::Blocks;
use crate::message::Message;
use crate::shape::Shape;
use std::marker::Model;

/// A reader of the messages of a field: seen as their shape, the levels below the message that has them, and the payloads
/// that are left.
#[derive(Drop)]
pub struct Children<'a> {
    blocks: Blocks<'a>,
    shape: Shape,
    above: u32,
}

impl<'a> Model for Children<'a> {
    ghost use Rattle.std.specs.Prelude.{◌≡◌, true};
    ghost use Rattle.std.specs.List.{list_all};
    ghost use Rattle.plan_scan.specs.Scanned.{Left, is_readable};

    ghost Value = { Left };

    ghost view = { λ c. record { shape = c.shape; above = c.above; blocks = c.blocks } };

    ghost invariant = { λ c. list_all (is_readable c.above c.shape) c.blocks ≡ true };
}

impl<'a> Children<'a> {
    ghost use Rattle.std.specs.Prelude.{◌≡◌, true};
    ghost use Rattle.std.specs.List.{list_all};
    ghost use Rattle.plan_scan.specs.Scanned.{IsNextChild, is_readable};

    /// The messages of this shape in these payloads, in a message with so many levels below it.
    pub(crate) fn new(blocks: Blocks<'a>, shape: Shape, above: u32) -> Children<'a>
        requires { list_all (is_readable above shape) blocks ≡ true }
        ensures { result ≡ record { shape = shape; above = above; blocks = blocks.entry } }
    {
        Children {
            blocks,
            shape,
            above,
        }
    }

    /// The next message, or `None` at the end. No payload is copied.
    pub fn next(&mut self) -> Option<Message<'a>>
        ensures { IsNextChild self.old self.new result }
    {
        let block = self.blocks.next()?;
        Some(Message::of_pieces(self.shape, self.above - 1, block, &[]))
    }
}
