// Where a group stands.

/// The place of a group among the groups of an aggregate.
#[derive(Clone, Copy, Debug, PartialEq, Eq)]
pub enum GroupPlace {
    /// That of the first equal group, which stood there.
    Found(u32),
    /// That behind all others, where the group was put.
    New(u32),
}
