// The response time of each row of a set, or the highest-ranked row that misses: document 01, "Rank and response time".
#![tactic(auto)]

ghost use Rattle.responses.specs.Verdict.{IsVerdict};

mod timed;

use climbs::RankedSet;
pub use timed::{Miss, Timed};

// The response time of each row, or the highest-ranked row that misses. A climb starts its row's own time after the response time of the row before.
pub fn responses_of<'a>(set: &'a RankedSet<'a>) -> Result<Timed<'a>, Miss>
    ensures { IsVerdict set.now result }
{
    let by_rank = set.by_rank();
    let mut response = [0u32; 24];
    let mut before = 0;
    for j in 0..by_rank.c.len() {
        let row = climbs::row_at(&by_rank, j);
        let k = set.order[j];
        let Some(r) = climbs::climb_from(before + row.own, &row) else {
            return Err(Miss { row: k });
        };
        response[k] = r;
        before = r;
    }
    Ok(Timed { set, response })
}
