// Whether a core takes rows, and its core allowance with them: document 01, "Placement". Few rows are judged by points, more by short climbs, and by
// points where a climb takes too many rounds.
#![tactic(auto)]

ghost use Rattle.std.specs.Prelude.{◌≤◌, length};
ghost use Rattle.theory.specs.Climb.{Start};
ghost use Rattle.rows.specs.Values.{rows_in};
ghost use Rattle.demands.specs.Loads.{load_in};
ghost use Rattle.fits.specs.Fit.{IsFit, IsShortFit};
ghost use Rattle.fits.specs.Judged.{IsJudged};
ghost use Rattle.fits.specs.Smallest.{IsSmallest};

use climbs::RankedSet;
use demands::{Raise, RankedRow};
use raises::LeftOff;
use rows::Rows;

// What short climbs tell of a row that meets: its response time and the largest raise.
#[derive(Clone, Copy)]
struct Judged {
    response: u32,
    raise: u32,
}

// The smallest of the rows' allowances.
fn smallest(allowed: &[i64]) -> i64
    requires { 1 ≤ length allowed.now }
    ensures { IsSmallest allowed.now (length allowed.now) result }
{
    allowed.iter().copied().min().unwrap()
}

// The fit by the rows' points: the smallest of their allowances, where that is no negative number.
fn fit_by_points(set: &RankedSet) -> Option<u32>
    ensures { IsFit (rows_in set.now.rows) result }
{
    let allowed = points::point_allowances(set);
    let least = smallest(&allowed[..set.rows.c.len()]);
    u32::try_from(least).ok()
}

// A row's response time, by a climb from a start, and the largest raise, up to one given, with which it still meets; or none, where it misses.
fn judge(start: u32, row: &RankedRow, most: &Raise) -> Result<Option<Judged>, LeftOff>
    requires { Start (load_in row.now) start }
    ensures { IsJudged row.now most.now result }
{
    let no_raise = Raise {
        more: 0,
        period: most.period,
    };
    let Some(response) = raises::climb_raised(start, row, &no_raise, 300)? else {
        return Ok(None);
    };
    let raise = raises::largest_raise(response, row, most, 300)?;
    Ok(Some(Judged { response, raise }))
}

// The fit by short climbs. For each row by rank only the row that counts most in its load is raised: of those above it the one of the shortest period, or
// itself where there is none.
fn fit_by_climbs(set: &RankedSet) -> Result<Option<u32>, LeftOff>
    ensures { IsShortFit (rows_in set.now.rows) result }
{
    let by_rank = set.by_rank();
    let mut allowance = 1_000_000;
    let mut period = 1_000_000;
    // The response time of the row before.
    let mut before = 0;
    for j in 0..by_rank.c.len() {
        let row = climbs::row_at(&by_rank, j);
        let most = Raise {
            more: allowance,
            period,
        };
        match judge(before + row.own, &row, &most)? {
            Some(judged) => {
                before = judged.response;
                allowance = judged.raise;
            }
            None => return Ok(None),
        }
        period = period.min(by_rank.t[j]);
    }
    Ok(Some(allowance))
}

// Whether a core takes rows, and then its core allowance with them.
pub fn fit_of(rows: &Rows) -> Option<u32>
    ensures { IsFit (rows_in rows.now) result }
{
    let set = climbs::ranked(*rows);
    // Few rows have few points.
    if rows.c.len() <= 6 {
        return fit_by_points(&set);
    }
    match fit_by_climbs(&set) {
        Ok(fit) => fit,
        Err(LeftOff) => fit_by_points(&set),
    }
}
