// Table bytes to a table in memory, or their refusal 1 to 5 with its row: document 01, "Records" and "Refusal numbers".
#![tactic(auto)]

ghost use Rattle.std.specs.Prelude.{◌≡◌, ◌≤◌, [], ◌∷◌, length};
ghost use Rattle.rows.specs.Values.{row_of};
ghost use Rattle.records.specs.Reading.{row_in, read_rows, read_table};
ghost use Rattle.reading.specs.Next.{IsCount, IsRowRead, IsNext};
ghost use Rattle.reading.specs.Read.{IsRead};

use answers::{Answer, Refusal};
use numbers::Kind;
use rows::{HeldRows, Row};

mod table;

pub use table::Table;

// The answer to the body of a kind 4 record, behind n rows.
fn read_count(body: &[u8], n: usize) -> Answer
    ensures { IsCount body.now n result }
{
    let [count, after @ ..] = body else {
        return Err(Refusal::RecordsBroken);
    };
    if n == 0 {
        return Err(Refusal::RowsOutOfRange);
    }
    if usize::from(*count) != n {
        return Err(Refusal::CountDiffers);
    }
    if !after.is_empty() {
        return Err(Refusal::RecordsBroken);
    }
    Ok(())
}

// The row in the body of a kind 2 record.
fn row_in(body: &[u8]) -> Row
    requires { 12 ≤ length body.now }
    ensures { row_of result ≡ row_in body.now }
{
    Row {
        c: numbers::number_at(body, 0),
        d: numbers::number_at(body, 4),
        t: numbers::number_at(body, 8),
    }
}

// The row of a kind 2 record by its body, behind n rows.
fn read_row(body: &[u8], n: usize) -> Result<Row, Refusal>
    requires { n ≤ 24 }
    ensures { IsRowRead (2 ∷ body.now) n result }
{
    if n == 24 {
        return Err(Refusal::RowsOutOfRange);
    }
    if body.len() < 12 {
        return Err(Refusal::RecordsBroken);
    }
    let row = row_in(body);
    if !refusals::within_limits(row) {
        return Err(Refusal::RowBreaksLimits(n as u32 + 1));
    }
    Ok(row)
}

// What the first of some records is, behind kind 1 and n rows: one more row, or the end of the table.
fn next_record(records: &[u8], n: usize) -> Result<Option<Row>, Refusal>
    requires { n ≤ 24 }
    ensures { IsNext records.now n result }
{
    let [byte, body @ ..] = records else {
        return Err(Refusal::RecordsBroken);
    };
    let Ok(kind) = Kind::try_from(*byte) else {
        return Err(Refusal::RecordsBroken);
    };
    match kind {
        Kind::Row => Ok(Some(read_row(body, n)?)),
        Kind::End => {
            read_count(body, n)?;
            Ok(None)
        }
        Kind::Table | Kind::Figures => Err(Refusal::RecordsBroken),
    }
}

// Reads the records behind kind 1. The bytes tell where they end, and the rows are a table's only when all are read, so they are counted and held here until then.
fn read_rows(records: &[u8], cores: usize) -> Result<Table, Refusal>
    requires { (1 ≤ cores) × (cores ≤ 8) }
    ensures { IsRead (read_rows 24 cores [] records.now) result }
{
    let mut c = [0u32; 24];
    let mut d = [0u32; 24];
    let mut t = [0u32; 24];
    let mut n = 0;
    let mut rest = records;
    while let Some(row) = next_record(rest, n)? {
        c[n] = row.c;
        d[n] = row.d;
        t[n] = row.t;
        n += 1;
        rest = &rest[13..];
    }
    let held = HeldRows { n, c, d, t };
    Ok(Table { cores, held })
}

// Reads a table.
pub fn read_table(bytes: &[u8]) -> Result<Table, Refusal>
    ensures { IsRead (read_table bytes.now) result }
{
    let [kind, cores, records @ ..] = bytes else {
        return Err(Refusal::RecordsBroken);
    };
    if *kind != u8::from(Kind::Table) {
        return Err(Refusal::RecordsBroken);
    }
    let cores = usize::from(*cores);
    if cores < 1 || 8 < cores {
        return Err(Refusal::CoresOutOfRange);
    }
    read_rows(records, cores)
}
