// The set service and the point service: document 01, one core's rows as three lists of 32-bit numbers, response times and allowances in two lent lists. And the
// explanation of a row's allowance: document 02, request 1, on the same three lists.
#![tactic(auto)]

ghost use Rattle.std.specs.Prelude.{◌≡◌, ℕ, ◌≤◌, ◌<◌, List, pos, length, get_or};
ghost use Rattle.theory.specs.Row.{Row};
ghost use Rattle.theory.specs.Allowance.{IsAllowance};
ghost use Rattle.theory.specs.Points.{IsPointAllowance};
ghost use Rattle.theory.specs.Lists.{Answered, SetAnswered, PointAnswered, filled};
ghost use Rattle.theory.specs.Explanation.{Explained};
ghost use Rattle.rows.specs.Values.{rows_in};
ghost use Rattle.answers.specs.Answer.{returned_by};
ghost use Rattle.sets.specs.Stages.{IsTimed, limiting_of, point_of};

use answers::{Answer, Refusal};
use climbs::RankedSet;
use responses::Timed;

// A way to find the allowances of a set that is on time, and what it means by an allowance.
pub trait FindAllowances {
    ghost allowance: { List Row → ℕ → ℕ → Type 0 };

    // The allowance of each row at its place.
    fn find(timed: &Timed) -> [u32; 24]
        ensures each { (i : ℕ) → i < length timed.now.set.now.rows.c.now → allowance (rows_in timed.now.set.now.rows) i (get_or result i 0) }
        ensures long { length result ≡ 24 };
}

// By trial of the definition.
pub struct ByTrial;

impl FindAllowances for ByTrial {
    ghost allowance = { IsAllowance };

    fn find(timed: &Timed) -> [u32; 24] {
        trials::trial_allowances(timed)
    }
}

// By the point formula.
pub struct ByPoints;

impl FindAllowances for ByPoints {
    ghost allowance = { λ rows i a. IsPointAllowance rows i (pos a) };

    fn find(timed: &Timed) -> [u32; 24] {
        points::allowances_by_points(timed.set)
    }
}

// Fills the front of a lent list with numbers.
fn fill(list: &mut [u32], numbers: &[u32])
    requires { length numbers.now ≤ length list.old }
    ensures { list.new ≡ filled numbers.now list.old }
{
    list[..numbers.len()].copy_from_slice(numbers);
}

// The response times of a set's rows, or the refusal for the highest-ranked row that misses.
fn respond<'a>(set: &'a RankedSet<'a>) -> Result<Timed<'a>, Refusal>
    ensures { IsTimed set.now.rows result }
{
    match responses::responses_of(set) {
        Ok(timed) => Ok(timed),
        Err(miss) => Err(Refusal::RowMisses(miss.row as u32 + 1)),
    }
}

// The list service that finds allowances so.
pub fn list_service<F: FindAllowances>(
    c: &[u32],
    d: &[u32],
    t: &[u32],
    responses: &mut [u32],
    allowances: &mut [u32],
) -> Answer
    ensures { Answered F.allowance c.now d.now t.now responses.old allowances.old (returned_by result) responses.new allowances.new }
{
    let rows = refusals::check_lists(c, d, t, responses.len(), allowances.len())?;
    let set = climbs::ranked(rows);
    let timed = respond(&set)?;
    let found = F::find(&timed);
    let n = c.len();
    fill(responses, &timed.response[..n]);
    fill(allowances, &found[..n]);
    Ok(())
}

// The set service: allowances by trial of the definition.
pub fn set_service(
    c: &[u32],
    d: &[u32],
    t: &[u32],
    responses: &mut [u32],
    allowances: &mut [u32],
) -> Answer
    ensures { SetAnswered c.now d.now t.now responses.old allowances.old (returned_by result) responses.new allowances.new }
{
    list_service::<ByTrial>(c, d, t, responses, allowances)
}

// The point service: allowances by the point formula.
pub fn point_service(
    c: &[u32],
    d: &[u32],
    t: &[u32],
    responses: &mut [u32],
    allowances: &mut [u32],
) -> Answer
    ensures { PointAnswered c.now d.now t.now responses.old allowances.old (returned_by result) responses.new allowances.new }
{
    list_service::<ByPoints>(c, d, t, responses, allowances)
}

// Why a row's allowance is not larger: the number of the row that limits it, and the point at which it does.
#[derive(Clone, Copy)]
pub struct Explanation {
    pub limiting: u32,
    pub point: u32,
}

// The explanation of the row with a number, from 1.
pub fn explain(c: &[u32], d: &[u32], t: &[u32], row: u32) -> Result<Explanation, Refusal>
    ensures { Explained c.now d.now t.now row (returned_by result) (limiting_of result) (point_of result) }
{
    let n = c.len();
    let rows = refusals::check_lists(c, d, t, n, n)?;
    if row == 0 || n <= row as usize - 1 {
        return Err(Refusal::RowNotInSet);
    }
    let set = climbs::ranked(rows);
    let timed = respond(&set)?;
    let limit = reasons::limit_of(&timed, row as usize - 1);
    Ok(Explanation {
        limiting: limit.row as u32 + 1,
        point: limit.point,
    })
}

#[cfg(test)]
mod tests {
    use super::*;
    use std::test::Fail;
    use trials::ByRank;

    // The rows of a set by rank, after the `Timed` that they were asked of is gone.
    fn by_rank<'a>(
        set: &'a RankedSet<'a>,
        response: &'a mut [u32; 24],
    ) -> Result<ByRank<'a>, Refusal> {
        let timed = respond(set)?;
        *response = trials::responses_by_rank(&timed);
        Ok(trials::ranked(&timed, response))
    }

    // How long a reference lives is in no clause.
    #[test]
    fn rows_by_rank_outlive_their_timed() -> Result<(), Fail> {
        let c = [45, 30, 15, 10];
        let d = [260, 190, 85, 60];
        let t = [320, 210, 100, 70];
        let set = climbs::ranked(refusals::check_lists(&c, &d, &t, 4, 4)?);
        let mut response = [0u32; 24];
        let rows = by_rank(&set, &mut response)?;
        if rows.c != [10, 15, 30, 45].as_slice() || rows.response != [10, 25, 55, 125].as_slice() {
            return Err("other rows, or other response times".into());
        }
        Ok(())
    }
}
