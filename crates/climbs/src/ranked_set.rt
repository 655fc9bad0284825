// The rows of a set by rank.
ghost use Rattle.std.specs.Prelude.{◌≡◌, length, take};
ghost use Rattle.climbs.specs.Ranking.{ranking_by, StandByRank};

use rows::{HeldRows, Rows};

// The rows of a set, in table order; their places by rank, highest first; and the rows in that order.
#[derive(Drop)]
pub struct RankedSet<'a> {
    pub rows: Rows<'a>,
    pub order: [usize; 24],
    pub gathered: HeldRows,
    ghost ranked: { take (length rows.d.now) order ≡ ranking_by rows.d.now },
    ghost by_rank: { StandByRank rows.c.now rows.d.now rows.t.now (take gathered.n gathered.c) (take gathered.n gathered.d) (take gathered.n gathered.t) },
}
