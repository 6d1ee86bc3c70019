// Numbers from a seed.
ghost use Rattle.std.specs.Prelude.{◌<◌};

/// Numbers that follow from a seed (xorshift).
#[derive(Drop)]
pub(crate) struct Random {
    state: u64,
}

impl Random {
    pub(crate) fn new(seed: u64) -> Random {
        Random { state: seed }
    }

    fn next(&mut self) -> u64 {
        let mut state = self.state;
        state ^= state << 13;
        state ^= state >> 7;
        state ^= state << 17;
        self.state = state;
        state
    }

    /// A number below another.
    pub(crate) fn below(&mut self, end: u64) -> u64
        requires { 0 < end }
        ensures { result < end }
    {
        self.next() % end
    }

    pub(crate) fn is_heads(&mut self) -> bool {
        self.below(2) == 0
    }
}
