// Where a message stands.
ghost use Rattle.std.specs.Prelude.{◌+◌, ◌<◌, ◌≤◌, ◌^◌};

/// Where a message stands, and how long its two parts are.
#[derive(Clone, Copy, Debug)]
pub(crate) struct Extent {
    pub(crate) offset: u64,
    pub(crate) meta_len: u64,
    pub(crate) body_len: u64,
    ghost long: { 8 ≤ meta_len },
    ghost fits: { offset + meta_len + body_len < 2 ^ 64 },
}
