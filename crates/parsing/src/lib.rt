// A spreadsheet's text to a table in memory, or its refusal 9, 2, 3 or 4 with its row: document 02, request 2. The text is read once from the front, and no part of it is
// copied.
#![tactic(auto)]

ghost use Rattle.std.specs.Prelude.{◌≡◌};
ghost use Rattle.rows.specs.Values.{row_of};
ghost use Rattle.reading.specs.Read.{IsRead};
ghost use Rattle.texts.specs.Table.{in_rows_place, read_text};
ghost use Rattle.parsing.specs.Judging.{judged_row, judged_table};

use answers::{Answer, Refusal};
use reading::Table;
use rows::{HeldRows, Row};

// A line's number in the row's place of an answer.
fn line_number(line: usize) -> u32
    ensures { result ≡ in_rows_place line }
{
    u32::try_from(line).unwrap_or(u32::MAX)
}

// What the rows from the front are with one more behind n of them: the fault that they have already, or its own, or none.
fn judge_row(fault: Answer, n: usize, row: Row) -> Answer
    ensures { result ≡ judged_row fault n (row_of row) }
{
    fault?;
    if 24 <= n {
        return Err(Refusal::RowsOutOfRange);
    }
    if !refusals::within_limits(row) {
        return Err(Refusal::RowBreaksLimits(n as u32 + 1));
    }
    Ok(())
}

// The answer to n rows with a fault or none, on a number of cores.
fn judge_table(cores: u32, n: usize, fault: Answer) -> Answer
    ensures { result ≡ judged_table cores n fault }
{
    if cores < 1 || 8 < cores {
        return Err(Refusal::CoresOutOfRange);
    }
    if n == 0 {
        return Err(Refusal::RowsOutOfRange);
    }
    fault
}

// Reads a text as a table on a number of cores. The text tells where its lines end, and rows beyond the 24th are counted too. There is at least a byte for each line
// before those left, so that a line's number is in range.
pub fn read_text(cores: u32, text: &[u8]) -> Result<Table, Refusal>
    ensures { IsRead (read_text cores text.now) result }
{
    let mut c = [0u32; 24];
    let mut d = [0u32; 24];
    let mut t = [0u32; 24];
    let mut n = 0;
    let mut fault = Ok(());
    let mut rest = fields::read_header(text).ok_or(Refusal::LineBroken(1))?;
    while !rest.is_empty() {
        let Some(line) = fields::read_line(rest) else {
            return Err(Refusal::LineBroken(line_number(n + 2)));
        };
        fault = judge_row(fault, n, line.row);
        if fault.is_ok() {
            c[n] = line.row.c;
            d[n] = line.row.d;
            t[n] = line.row.t;
        }
        n += 1;
        rest = line.rest;
    }
    judge_table(cores, n, fault)?;
    let held = HeldRows { n, c, d, t };
    Ok(Table {
        cores: cores as usize,
        held,
    })
}
