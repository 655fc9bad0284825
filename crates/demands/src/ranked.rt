// A row with the rows above it, and a raise of one of these.
ghost use Rattle.std.specs.Prelude.{◌≤◌};
ghost use Rattle.demands.specs.Levels.{Small};

// A row, its C as its own time and its D as the limit, with C and T of the rows above it.
#[derive(Clone, Copy)]
pub struct RankedRow<'a> {
    pub limit: u32,
    pub own: u32,
    pub c: &'a [u32],
    pub t: &'a [u32],
    ghost small: { Small c.now t.now },
    ghost in_range: { (limit ≤ 1_000_000) × (own ≤ 1_000_000) },
}

// So much more for each job of a period.
#[derive(Clone, Copy)]
pub struct Raise {
    pub more: u32,
    pub period: u32,
    ghost in_range: { (more ≤ period) × (1 ≤ period) × (period ≤ 1_000_000) },
}
