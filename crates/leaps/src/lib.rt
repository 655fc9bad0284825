// Response times by a climb that leaps, on lists of C and T: document 01, "Rank and response time", with or without a raise, in fewer rounds. Some of the
// rows above are taken as linear in time, and what these ask for says that no time before a certain one has room. A leap goes no further than that, so the
// climb comes to what one without leaps comes to.
#![tactic(auto)]

ghost use Rattle.std.specs.Prelude.{◌≡◌, ℕ, ◌-◌, ◌*◌, ◌≤◌, ◌<◌};
ghost use Rattle.theory.specs.Response.{ceil};
ghost use Rattle.theory.specs.Climb.{Start, Climbed};
ghost use Rattle.demands.specs.Loads.{raised_load_in};
ghost use Rattle.climbs.specs.Climb.{outcome_of};
ghost use Rattle.leaps.specs.Leap.{share, Leaned, InQuestion};

use demands::{Raise, RankedRow};

// Where a leap stands: what the rows that are not taken as linear ask for, with the row's own time, and what those that are leave of the core, in parts
// of 2^32.
#[derive(Clone, Copy)]
struct Leaning {
    rest: u64,
    free: u64,
    ghost in_range: { (1 ≤ rest) × (rest ≤ 60_000_000) × (free ≤ 4_294_967_296) },
}

// The least time in question. Where nothing is left of the core there is none.
fn least_in_question(leap: Leaning) -> Option<u64>
    ensures { (S : ℕ) → leap.rest * 4_294_967_296 ≤ S * leap.free → InQuestion result S }
{
    if leap.free == 0 {
        return None;
    }
    Some((leap.rest * 4294967296).div_ceil(leap.free))
}

// What is left of the core behind a row's share.
#[tactic(auto, unfolding(crate::specs::Leap::share))]
fn left_behind(free: u64, c: u32, t: u32) -> u64
    requires { 1 ≤ t }
    ensures { result ≡ free - share c t }
{
    free.saturating_sub(u64::from(c) * 4294967296 / u64::from(t))
}

// The leap with one row more: as linear where its jobs up to now end before the least time in question, since it asks for more there than they do.
fn lean(leap: Leaning, at: u32, c: u32, t: u32) -> Leaning
    requires le_t { (1 ≤ t) × (t ≤ 1_000_000) × (c ≤ t) × (at ≤ 1_000_000) }
    requires some_left { ceil at t * c < leap.rest }
    ensures { Leaned at c t leap.rest leap.free result.rest result.free }
{
    let jobs = demands::jobs(at, t);
    match least_in_question(leap) {
        Some(least) if least <= u64::from(jobs) * u64::from(t) => leap,
        _ => Leaning {
            rest: leap.rest - u64::from(jobs) * u64::from(c),
            free: left_behind(leap.free, c, t),
        },
    }
}

// A least time in question as a value of the climb: not before the one at hand, and at most one past the limit.
fn within(at: u32, least: Option<u64>, limit: u32) -> u32
    requires { (at ≤ limit) × (limit ≤ 1_000_000) }
    ensures later { at ≤ result }
    ensures in_question { (S : ℕ) → at ≤ S → InQuestion least S → result ≤ S }
{
    match least {
        Some(least) => least.clamp(u64::from(at), u64::from(limit) + 1) as u32,
        None => limit + 1,
    }
}

// A leap from a value that a climb may start from, to another that is not before it.
fn leap(at: u32, row: &RankedRow, raise: &Raise) -> u32
    requires runs { 1 ≤ row.now.own }
    requires start { Start (raised_load_in row.now raise.now) at }
    ensures { Start (raised_load_in row.now raise.now) result × (at ≤ result) }
{
    if row.limit < at {
        return at;
    }
    let whole = Leaning {
        rest: u64::from(demands::raised_load_at(row, raise, at)),
        free: 4294967296,
    };
    let mut leap = lean(whole, at, raise.more, raise.period);
    for (c, t) in row.c.iter().zip(row.t) {
        leap = lean(leap, at, *c, *t);
    }
    within(at, least_in_question(leap), row.limit)
}

// The climb from a start, with a raise: it ends at the first value that repeats or passes the limit, and leaps after every sixteenth round.
pub fn climb_with_leaps(start: u32, row: &RankedRow, raise: &Raise) -> Option<u32>
    requires runs { 1 ≤ row.now.own }
    requires start { Start (raised_load_in row.now raise.now) start }
    ensures { Climbed (raised_load_in row.now raise.now) row.now.limit (outcome_of result) }
{
    let mut at = start;
    loop {
        match raises::climb_on(at, row, raise, 16) {
            Ok(outcome) => break outcome,
            Err(standing) => {
                at = leap(standing.at, row, raise);
            }
        }
    }
}
