// The walk over a row's points: document 01, "Scheduling points". It visits each distinct point once, in ascending order, and keeps the greatest quotients.
#![tactic(auto)]

ghost use Rattle.std.specs.Prelude.{◌≡◌, ◌≤◌, ◌<◌, max, pos, nat_abs, ◌-ℤ◌, ◌≤ℤ◌, length};
ghost use Rattle.theory.specs.Moved.{greater};
ghost use Rattle.theory.specs.Points.{floor_div, last_multiple};
ghost use Rattle.demands.specs.Levels.{demand_of};
ghost use Rattle.demands.specs.Loads.{load_in};
ghost use Rattle.walks.specs.Quotients.{HoldsJobs, InRange, AllInRange, NewPointsIn, AllLiftedIn};

use demands::RankedRow;

// z / m, rounded towards minus infinity.
#[tactic(auto, using(crate::proofs::Rounding::floor_is_euclidean))]
pub fn floor_div(z: i64, m: i64) -> i64
    requires { pos 1 ≤ℤ m }
    ensures { result ≡ floor_div z (nat_abs m) }
{
    z.div_euclid(m)
}

// What rows ask for up to a time, as `demands::demand` says it, with the jobs of each left at the front of a list: they are wanted for the quotients too.
fn demand_with_jobs(row: &RankedRow, time: u32, jobs: &mut [u32]) -> u32
    requires time_bound { time ≤ 1_000_000 }
    requires c_in_bounds { length row.now.c.now ≤ length jobs.old }
    ensures value { (result ≡ demand_of row.now.c.now row.now.t.now time) × (result ≤ 48_000_000) }
    ensures holds_jobs { HoldsJobs row.now.t.now time jobs.new }
{
    let mut sum = 0;
    for h in 0..row.c.len() {
        let m = demands::jobs(time, row.t[h]);
        jobs[h] = m;
        sum += m * row.c[h];
    }
    sum
}

// The slack of a row at a time, with the jobs of the rows above it left at the front of a list.
fn slack_at(p: u32, row: &RankedRow, jobs: &mut [u32]) -> i64
    requires p_bound { p ≤ 1_000_000 }
    requires c_in_bounds { length row.now.c.now ≤ length jobs.old }
    ensures value { result ≡ pos p -ℤ pos (load_in row.now p) }
    ensures holds_jobs { HoldsJobs row.now.t.now p jobs.new }
{
    i64::from(p) - i64::from(row.own + demand_with_jobs(row, p, jobs))
}

// Lifts an entry to the quotient of a slack by m, where that is greater. Only there is it divided out: a quotient is greater than an entry exactly
// when one more than the entry, times m, is at most the slack.
fn lift_to_quotient(best: &mut i64, slack: i64, m: u32)
    requires in_range { InRange best.old }
    requires le_m { (1 ≤ m) × (m ≤ 1_000_000) }
    ensures { best.new ≡ greater best.old (floor_div slack m) }
{
    let divisor = i64::from(m);
    if (*best + 1) * divisor <= slack {
        *best = floor_div(slack, divisor);
    }
}

// Lifts each best quotient to the quotient at a point, where that is greater.
fn visit(p: u32, row: &RankedRow, best: &mut [i64])
    requires le_p { (1 ≤ p) × (p ≤ 1_000_000) }
    requires c_in_bounds { length row.now.c.now < length best.old }
    requires all_in_range { AllInRange row.now.c.now best.old }
    ensures { AllLiftedIn row.now (λ x. x ≡ p) best.old best.new }
{
    let mut jobs = [0u32; 24];
    let slack = slack_at(p, row, &mut jobs);
    let n = row.c.len();
    for (j, m) in jobs[..n].iter().enumerate() {
        lift_to_quotient(&mut best[j], slack, *m);
    }
    best[n] = slack.max(best[n]);
}

// The largest multiple of m not above a time.
#[tactic(auto, unfolding(theory::specs::Points::last_multiple))]
pub fn last_multiple(m: u32, time: u32) -> u32
    requires { 1 ≤ m }
    ensures { result ≡ last_multiple m time }
{
    time / m * m
}

// Visits the points of the walk at a level from a time that are above the last one visited, and gives the last one visited then.
#[tactic(auto, using(theory::proofs::Ceil::multiple_below))]
pub fn walk_on(level: usize, time: u32, last: u32, row: &RankedRow, best: &mut [i64]) -> u32
    requires level_in_bounds { level ≤ length row.now.c.now }
    requires le_time { (1 ≤ time) × (time ≤ 1_000_000) }
    requires c_in_bounds { length row.now.c.now < length best.old }
    requires all_in_range { AllInRange row.now.c.now best.old }
    ensures { (result ≡ max last time) × AllLiftedIn row.now (NewPointsIn row.now level time last) best.old best.new }
{
    if time <= last {
        return last;
    }
    if level == 0 {
        visit(time, row, best);
        return time;
    }
    let below = level - 1;
    let stop = last_multiple(row.t[below], time);
    if stop == 0 {
        return walk_on(below, time, last, row, best);
    }
    // Where the multiple is the time itself, the second half has nothing new.
    let reached = walk_on(below, stop, last, row, best);
    walk_on(below, time, reached, row, best)
}
