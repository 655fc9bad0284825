// Allowances by trial of the definition: one row is raised, and only the rows that the raise touches are climbed, the lowest in rank first.
#![tactic(auto)]

ghost use Rattle.std.specs.Prelude.{◌≡◌, ℕ, ◌<◌, length, get_or, take, IfOk, OnErr};
ghost use Rattle.theory.specs.Allowance.{IsAllowance};
ghost use Rattle.rows.specs.Values.{rows_in};
ghost use Rattle.climbs.specs.Ranking.{InRankOrder};
ghost use Rattle.trials.specs.Trial.{counted_by, IsAllowanceAt};
ghost use Rattle.trials.specs.Set.{AreTimedByRank};

mod by_rank;

pub use by_rank::ByRank;
use demands::Raise;
use raises::LeftOff;
use responses::Timed;

// The period of the jobs for which the row at place j by rank counts the one at place p: itself it counts once, and no deadline passes a million.
#[tactic(auto, unfolding(crate::specs::Trial::counted_by))]
pub fn counted_by(t: &[u32], p: usize, j: usize) -> u32
    requires { p < length t.now }
    ensures { result ≡ counted_by t.now p j }
{
    if j == p { 1_000_000 } else { t[p] }
}

// The allowance of the row at place p: only the rows from p on are touched, and the lowest is tried first.
pub fn allowance_at(by_rank: &ByRank, p: usize, rounds: u32) -> Result<u32, LeftOff>
    requires { p < length by_rank.now.c.now }
    ensures { IsAllowanceAt by_rank.now.c.now by_rank.now.d.now by_rank.now.t.now p rounds result }
{
    let mut allowance = by_rank.d[p] - by_rank.response[p];
    for j in (p..by_rank.c.len()).rev() {
        let most = Raise {
            more: allowance,
            period: counted_by(by_rank.t, p, j),
        };
        allowance = raises::largest_raise(by_rank.response[j], &by_rank.row_at(j), &most, rounds)?;
    }
    Ok(allowance)
}

// The response times of a set by rank.
#[tactic(auto, using(climbs::proofs::OrderByRank::places_below))]
pub fn responses_by_rank(timed: &Timed) -> [u32; 24]
    ensures by_rank { InRankOrder timed.now.set.now.rows.d.now timed.now.response (take (length timed.now.set.now.rows.d.now) result) }
    ensures long { length result ≡ 24 }
{
    let set = timed.set;
    climbs::gather(&timed.response, &set.order[..set.rows.d.len()])
}

// The rows of a set by rank, with their response times gathered so. They refer to the set and to those, and the `Timed` need not live as long.
pub fn ranked<'a, 'b: 'a>(timed: &Timed<'b>, response: &'a [u32; 24]) -> ByRank<'a>
    requires by_rank { InRankOrder timed.now.set.now.rows.d.now timed.now.response (take (length timed.now.set.now.rows.d.now) response.now) }
    requires long { length response.now ≡ 24 }
    ensures { AreTimedByRank timed.now.set.now.rows timed.now.response result }
{
    let set = timed.set;
    let rows = set.by_rank();
    ByRank {
        c: rows.c,
        d: rows.d,
        t: rows.t,
        response: &response[..rows.c.len()],
    }
}

// The allowance of each row, by climbs of at most so many rounds.
pub fn short_allowances(timed: &Timed, rounds: u32) -> Result<[u32; 24], LeftOff>
    ensures allowances { IfOk result (λ allowance. (i : ℕ) → i < length timed.now.set.now.rows.c.now → IsAllowance (rows_in timed.now.set.now.rows) i (get_or allowance i 0)) }
    ensures long { IfOk result (λ allowance. length allowance ≡ 24) }
    ensures left_off { OnErr result (rounds < 1_000_000) }
{
    let response = responses_by_rank(timed);
    let by_rank = ranked(timed, &response);
    let mut allowance = [0u32; 24];
    let set = timed.set;
    let places = &set.order[..set.rows.d.len()];
    for (p, &place) in places.iter().enumerate() {
        allowance[place] = allowance_at(&by_rank, p, rounds)?;
    }
    Ok(allowance)
}

// The allowance of each row. No climb takes a million rounds, so none is left off.
pub fn trial_allowances(timed: &Timed) -> [u32; 24]
    ensures allowances { (i : ℕ) → i < length timed.now.set.now.rows.c.now → IsAllowance (rows_in timed.now.set.now.rows) i (get_or result i 0) }
    ensures long { length result ≡ 24 }
{
    short_allowances(timed, 1_000_000).unwrap()
}
