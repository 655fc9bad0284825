// A set whose rows are all on time, with their response times; and the row that misses, where they are not.
ghost use Rattle.std.specs.Prelude.{◌≡◌, ℕ, ◌<◌, length};
ghost use Rattle.rows.specs.Values.{rows_in};
ghost use Rattle.responses.specs.InTime.{RespondsInTime};

use climbs::RankedSet;

// The highest-ranked row that misses, by its place.
#[derive(Clone, Copy, Debug, PartialEq, Eq)]
pub struct Miss {
    pub row: usize,
}

// A set, and the response time of each row at its place, which is at most its deadline.
#[derive(Drop)]
pub struct Timed<'a> {
    pub set: &'a RankedSet<'a>,
    pub response: [u32; 24],
    ghost in_time: { (k : ℕ) → k < length set.now.rows.c.now → RespondsInTime (rows_in set.now.rows) response k },
    ghost long: { length response ≡ 24 },
}
