// The workers of a run.
ghost use Rattle.std.specs.Prelude.{◌≤◌};

/// So many workers, from 1 to 64, with what starts them and what stands before each of their steps.
#[derive(Drop)]
pub struct Crew<'a, H, G> {
    pub rt: &'a H,
    pub gate: &'a G,
    pub workers: u32,
    pub ghost few: { (1 ≤ workers) × (workers ≤ 64) },
}
