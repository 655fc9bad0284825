// Rows by rank with their response times.
ghost use Rattle.std.specs.Prelude.{◌≡◌, ◌<◌, length, get_or, take};
ghost use Rattle.trials.specs.Trial.{InTimeByRank};

use demands::RankedRow;

// C, D, T and the response times of rows that all respond in time, by rank.
#[derive(Clone, Copy)]
pub struct ByRank<'a> {
    pub c: &'a [u32],
    pub d: &'a [u32],
    pub t: &'a [u32],
    pub response: &'a [u32],
    ghost in_time: { InTimeByRank c.now d.now t.now response.now },
}

impl ByRank<'_> {
    // The row at a place, with those before it. As `climbs::row_at` of rows within the limits; these may have a C of 0.
    pub fn row_at(&self, j: usize) -> RankedRow<'_>
        requires { j < length self.now.c.now }
        ensures executions_above { result.c.now ≡ take j self.now.c.now }
        ensures periods_above { result.t.now ≡ take j self.now.t.now }
        ensures own { result.own ≡ get_or self.now.c.now j 0 }
        ensures limit { result.limit ≡ get_or self.now.d.now j 0 }
    {
        RankedRow {
            limit: self.d[j],
            own: self.c[j],
            c: &self.c[..j],
            t: &self.t[..j],
        }
    }
}
