// Why an allowance is not larger: the row that limits it, and the point at which it does. Document 02, request 1, by points, on the rows by rank.
#![tactic(auto)]

ghost use Rattle.std.specs.Prelude.{◌≡◌, ◌≤◌, ◌<◌, length, get_or};
ghost use mathlib.Core.List.{Memᴰ};
ghost use Rattle.theory.specs.Explanation.{LimitedBy};
ghost use Rattle.rows.specs.Values.{rows_in};
ghost use Rattle.raises.specs.Raise.{load_with};
ghost use Rattle.reasons.specs.Reason.{walk_from, IsNextPoint, IsLargestAt, Reached, PointsByRank, IsMost, LimitedAt};

use demands::{Raise, RankedRow};
use responses::Timed;
use trials::ByRank;

// How far the points of a row's walk reach: the largest raise that one has room for, unless one was enough before, and the first that has.
#[derive(Clone, Copy)]
struct Reach {
    raise: u32,
    point: u32,
}

// A limiting row by its place, and the point at which it limits.
#[derive(Clone, Copy)]
pub struct Limit {
    pub row: usize,
    pub point: u32,
}

// The first point of a row's walk that is above the last one: level by level the multiple where that is above it, and else the time.
fn next_point(row: &RankedRow, last: u32) -> u32
    requires { last < row.now.limit }
    ensures { IsNextPoint row.now.t.now row.now.limit last result }
{
    let mut time = row.limit;
    for &m in row.t.iter().rev() {
        let stop = walks::last_multiple(m, time);
        if last < stop {
            time = stop;
        }
    }
    time
}

// The largest raise that a point of a row has room for, where it has room for the least one.
#[tactic(auto, using(demands::proofs::Levels::raise_small))]
fn largest_at(p: u32, row: &RankedRow, least: &Raise) -> Option<u32>
    requires { (1 ≤ p) × (p ≤ 1_000_000) }
    ensures { IsLargestAt (load_with row.now least.now.period) p least.now.more result }
{
    let load = demands::load_at(row, p);
    let jobs = demands::jobs(p, least.period);
    if load + least.more * jobs <= p {
        return Some((p - load) / jobs);
    }
    None
}

// How far the points of a row's walk reach, as long as none is known to have room for a raise that is enough: mostly the last one tells that.
fn reach_of(row: &RankedRow, enough: &Raise) -> Option<Reach>
    requires { 1 ≤ row.now.limit }
    ensures { Reached (load_with row.now enough.now.period) (walk_from row.now.t.now row.now.limit) enough.now.more result }
{
    let point = row.limit;
    if let Some(raise) = largest_at(point, row, enough) {
        return Some(Reach { raise, point });
    }
    let mut reach = None;
    // The least raise that no point so far has room for.
    let mut more = 0;
    let mut point = 0;
    while point < row.limit && more <= enough.more {
        point = next_point(row, point);
        let least = Raise {
            more,
            period: enough.period,
        };
        if let Some(raise) = largest_at(point, row, &least) {
            reach = Some(Reach { raise, point });
            more = raise + 1;
        }
    }
    reach
}

// A raise of the row at place p above which none is in question, among rows by rank: its allowance where short climbs tell it, and else its own distance to its
// deadline. The nearer it is, the sooner the walks end.
fn largest_in_question(by_rank: &ByRank, p: usize) -> u32
    requires points_by_rank { PointsByRank by_rank.now.c.now by_rank.now.d.now by_rank.now.t.now }
    requires p_in_bounds { p < length by_rank.now.c.now }
    ensures { IsMost by_rank.now.c.now by_rank.now.d.now by_rank.now.t.now p result }
{
    let distance = by_rank.d[p] - by_rank.c[p];
    trials::allowance_at(by_rank, p, 300).unwrap_or(distance)
}

// The row that limits the one at place p, among rows by rank. Only those from p on are touched, and they are asked from the highest down: a row whose points have room for the smallest
// raise so far is not the reason.
fn limit_at(by_rank: &ByRank, p: usize) -> Limit
    requires points_by_rank { PointsByRank by_rank.now.c.now by_rank.now.d.now by_rank.now.t.now }
    requires p_in_bounds { p < length by_rank.now.c.now }
    ensures { LimitedAt by_rank.now.c.now by_rank.now.d.now by_rank.now.t.now p result.row result.point }
{
    let mut smallest = largest_in_question(by_rank, p) + 1;
    let mut limit = None;
    for j in p..by_rank.c.len() {
        // No row has less room than for a raise of 0.
        if smallest == 0 {
            break;
        }
        let enough = Raise {
            more: smallest,
            period: trials::counted_by(by_rank.t, p, j),
        };
        let reach = reach_of(&by_rank.row_at(j), &enough).unwrap();
        if reach.raise < smallest {
            smallest = reach.raise;
            limit = Some(Limit {
                row: j,
                point: reach.point,
            });
        }
    }
    limit.unwrap()
}

// The place of a row in an order.
fn place_of(order: &[usize], i: usize) -> usize
    requires { Memᴰ i order.now }
    ensures { (result < length order.now) × (get_or order.now result 0 ≡ i) }
{
    order.iter().position(|&k| k == i).unwrap()
}

// The row that limits row i of a set that is on time, and the point at which it does.
pub fn limit_of(timed: &Timed, i: usize) -> Limit
    requires { i < length timed.now.set.now.rows.c.now }
    ensures limited_by { LimitedBy (rows_in timed.now.set.now.rows) i result.row result.point }
    ensures row_in_bounds { result.row < length timed.now.set.now.rows.c.now }
{
    let set = timed.set;
    let places = &set.order[..set.rows.d.len()];
    let p = place_of(places, i);
    let response = trials::responses_by_rank(timed);
    let by_rank = trials::ranked(timed, &response);
    let limit = limit_at(&by_rank, p);
    Limit {
        row: places[limit.row],
        point: limit.point,
    }
}
