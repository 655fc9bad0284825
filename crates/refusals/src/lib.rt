// The checks of lists before any climb: refusals 3, 4 and 7 of document 01, in this order.
#![tactic(auto)]

ghost use Rattle.std.specs.Prelude.{◌≡◌, MatchOption};
ghost use Rattle.theory.specs.Row.{within_limits, AllWithin, FirstBroken};
ghost use Rattle.rows.specs.Values.{row_of, rows_listed};
ghost use Rattle.refusals.specs.Checked.{Checked};

use answers::Refusal;
use rows::{Row, RowLists, Rows};

// Whether a row keeps the limits.
pub fn within_limits(row: Row) -> bool
    ensures { result ≡ within_limits (row_of row) }
{
    1 <= row.c && row.c <= row.d && row.d <= row.t && row.t <= 1_000_000
}

// The place of the first row that breaks the limits.
pub fn first_broken(rows: &RowLists) -> Option<usize>
    ensures { MatchOption result (AllWithin (rows_listed rows.now)) (FirstBroken (rows_listed rows.now)) }
{
    (0..rows.c.len()).find(|&k| !within_limits(rows.row_at(k)))
}

// The lists as rows within the limits, with room for the answers of each; or their refusal before any climb.
pub fn check_lists<'a>(
    c: &'a [u32],
    d: &'a [u32],
    t: &'a [u32],
    responses: usize,
    allowances: usize,
) -> Result<Rows<'a>, Refusal>
    ensures { Checked c.now d.now t.now responses allowances result }
{
    let n = c.len();
    if n < 1 || 24 < n || d.len() != n || t.len() != n {
        return Err(Refusal::RowsOutOfRange);
    }
    if let Some(broken) = first_broken(&RowLists { c, d, t }) {
        return Err(Refusal::RowBreaksLimits(broken as u32 + 1));
    }
    if responses < n || allowances < n {
        return Err(Refusal::OutputTooShort);
    }
    Ok(Rows { c, d, t })
}
