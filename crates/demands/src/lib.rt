// What rows above another ask for up to a time: the sum of document 01, "Rank and response time", on lists of C and T; and the load of a row, with one of the
// rows above it raised or not.
#![tactic(auto)]

ghost use Rattle.std.specs.Prelude.{◌≡◌, ◌≤◌};
ghost use Rattle.theory.specs.Response.{ceil};
ghost use Rattle.demands.specs.Levels.{demand_of, Small};
ghost use Rattle.demands.specs.Loads.{load_in, raised_load_in};

mod ranked;

pub use ranked::{Raise, RankedRow};

// How many jobs a row with period m releases before a time.
#[tactic(auto, unfolding(theory::specs::Response::ceil))]
pub fn jobs(time: u32, m: u32) -> u32
    requires le_m { (1 ≤ m) × (m ≤ 1_000_000) }
    requires time_bound { time ≤ 1_000_000 }
    ensures { result ≡ ceil time m }
{
    // `div_ceil` has two steps more behind the division, which long climbs feel.
    (time + (m - 1)) / m
}

// What rows ask for up to a time.
pub fn demand(c: &[u32], t: &[u32], time: u32) -> u32
    requires small { Small c.now t.now }
    requires time_bound { time ≤ 1_000_000 }
    ensures { (result ≡ demand_of c.now t.now time) × (result ≤ 48_000_000) }
{
    let mut sum = 0;
    // Cut to the length of C, the list of T ends with it, and a round has one end to look for.
    for (execution, period) in c.iter().zip(&t[..c.len()]) {
        sum += jobs(time, *period) * *execution;
    }
    sum
}

// The load of a row at a time.
pub fn load_at(row: &RankedRow, time: u32) -> u32
    requires { time ≤ 1_000_000 }
    ensures { (result ≡ load_in row.now time) × (result ≤ 49_000_000) }
{
    row.own + demand(row.c, row.t, time)
}

// The load of a row at a time with a raise.
#[tactic(auto, using(crate::proofs::Levels::raise_small))]
pub fn raised_load_at(row: &RankedRow, raise: &Raise, time: u32) -> u32
    requires { time ≤ 1_000_000 }
    ensures { (result ≡ raised_load_in row.now raise.now time) × (result ≤ 60_000_000) }
{
    load_at(row, time) + raise.more * jobs(time, raise.period)
}
