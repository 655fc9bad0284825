// The largest raise of one row with which another still meets: document 01, "Allowance", for two rows, by climbs of a limited number of rounds, on lists of C and T.
#![tactic(auto)]

ghost use Rattle.std.specs.Prelude.{◌≤◌};
ghost use Rattle.theory.specs.Climb.{LeastRoom, Start};
ghost use Rattle.demands.specs.Loads.{load_in, raised_load_in};
ghost use Rattle.raises.specs.Raise.{load_with, RoomBy, ClimbedOn, ClimbedIn, IsRaise};

use demands::{Raise, RankedRow};

// Where a climb stands that has used up its rounds, and neither responded nor missed.
#[derive(Clone, Copy, Debug, PartialEq, Eq)]
pub struct Standing {
    pub at: u32,
}

// A climb was left off, and what it was for is not known.
#[derive(Clone, Copy, Debug, PartialEq, Eq)]
pub struct LeftOff;

impl From<Standing> for LeftOff {
    fn from(_standing: Standing) -> LeftOff {
        LeftOff
    }
}

// The climb from a start, in at most so many rounds, with a raise: the response time, the miss, or where it stands.
pub fn climb_on(
    start: u32,
    row: &RankedRow,
    raise: &Raise,
    rounds: u32,
) -> Result<Option<u32>, Standing>
    requires { Start (raised_load_in row.now raise.now) start }
    ensures { ClimbedOn (raised_load_in row.now raise.now) row.now.limit start rounds result }
{
    let mut at = start;
    for round in 0..rounds {
        if row.limit < at {
            return Ok(None);
        }
        let next = demands::raised_load_at(row, raise, at);
        if next == at {
            return Ok(Some(at));
        }
        at = next;
    }
    if row.limit < at {
        return Ok(None);
    }
    Err(Standing { at })
}

// The same climb, which is left off where its rounds do not do.
pub fn climb_raised(
    start: u32,
    row: &RankedRow,
    raise: &Raise,
    rounds: u32,
) -> Result<Option<u32>, LeftOff>
    requires { Start (raised_load_in row.now raise.now) start }
    ensures { ClimbedIn (raised_load_in row.now raise.now) row.now.limit rounds result }
{
    Ok(climb_on(start, row, raise, rounds)?)
}

// The largest raise below one that misses: by halves, each climb from the response time with the raise that meets.
fn halve(response: u32, row: &RankedRow, most: &Raise, rounds: u32) -> Result<u32, LeftOff>
    requires least_room { LeastRoom (load_with row.now most.now.period 0) response × (response ≤ row.now.limit) }
    requires most_misses { RoomBy (raised_load_in row.now most.now) row.now.limit → ⊥ }
    ensures { IsRaise (load_with row.now most.now.period) row.now.limit most.now.more rounds result }
{
    let mut low = 0;
    let mut high = most.more;
    let mut start = response;
    while low + 1 < high {
        let middle = low + (high - low) / 2;
        let raise = Raise {
            more: middle,
            period: most.period,
        };
        match climb_raised(start, row, &raise, rounds)? {
            Some(response) => {
                low = middle;
                start = response;
            }
            None => {
                high = middle;
            }
        }
    }
    Ok(low)
}

// The largest raise, up to one given, with which there is still room by the limit: the climb goes on from the response time without a raise.
pub fn largest_raise(
    response: u32,
    row: &RankedRow,
    most: &Raise,
    rounds: u32,
) -> Result<u32, LeftOff>
    requires least_room { LeastRoom (load_in row.now) response × (response ≤ row.now.limit) }
    ensures { IsRaise (load_with row.now most.now.period) row.now.limit most.now.more rounds result }
{
    match climb_raised(response, row, most, rounds)? {
        Some(_) => Ok(most.more),
        None => halve(response, row, most, rounds),
    }
}
