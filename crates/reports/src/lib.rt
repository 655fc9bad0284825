// The bytes of a table and of a report into a lent byte string: document 01, "Records". A report's kind 1 and kind 2 records come as the bytes that they are.
#![tactic(auto)]

ghost use Rattle.std.specs.Prelude.{◌≡◌, ℕ, ◌+◌, ◌*◌, ◌≤◌, ◌<◌, length, get_or, take, drop};
ghost use mathlib.Core.List.{[], ◌∷◌, ◌++◌, flat_map};
ghost use Rattle.theory.specs.Lists.{filled};
ghost use Rattle.rows.specs.Values.{row_of, rows_listed, figures_of, figures_in};
ghost use Rattle.numbers.specs.Kind.{byte_of};
ghost use Rattle.records.specs.Report.{row_record, figures_record, table_bytes};

use numbers::Kind;
use rows::{FigureLists, Figures, Row, RowLists};

// Writes a kind and the byte behind it from a place on.
fn write_kind(report: &mut [u8], at: usize, kind: Kind, byte: u8)
    requires { at + 2 ≤ length report.old }
    ensures { report.new ≡ take at report.old ++ (byte_of kind ∷ byte ∷ []) ++ drop (at + 2) report.old }
{
    numbers::put_bytes(report, at, &[u8::from(kind), byte]);
}

// Writes a row's kind 3 record from a place on.
fn write_figures(report: &mut [u8], at: usize, figures: Figures)
    requires { (at + 10 ≤ length report.old) × (figures.core < 256) }
    ensures { report.new ≡ take at report.old ++ figures_record (figures_of figures) ++ drop (at + 10) report.old }
{
    write_kind(report, at, Kind::Figures, figures.core as u8);
    numbers::put_number(report, at + 2, figures.response);
    numbers::put_number(report, at + 6, figures.allowance);
}

// Writes a kind 3 record for each row from a place on.
fn write_all_figures(report: &mut [u8], at: usize, figures: &FigureLists)
    requires in_bounds { at + 10 * length figures.now.core.now ≤ length report.old }
    requires by_index { (i : ℕ) → i < length figures.now.core.now → get_or figures.now.core.now i 0 < 256 }
    ensures { report.new ≡ take at report.old ++ flat_map figures_record (figures_in figures.now) ++ drop (at + 10 * length figures.now.core.now) report.old }
{
    for i in 0..figures.core.len() {
        write_figures(report, at + 10 * i, figures.figures_at(i));
    }
}

// Writes a report: the records of the table, a kind 3 for each row, kind 4.
pub fn write_report(records: &[u8], figures: &FigureLists, report: &mut [u8])
    requires few { length figures.now.core.now ≤ 24 }
    requires in_bounds { length records.now + 10 * length figures.now.core.now + 2 ≤ length report.old }
    requires by_index { (i : ℕ) → i < length figures.now.core.now → get_or figures.now.core.now i 0 < 256 }
    ensures { report.new ≡ filled (records.now ++ (flat_map figures_record (figures_in figures.now) ++ (4 ∷ length figures.now.core.now ∷ []))) report.old }
{
    numbers::put_bytes(report, 0, records);
    let at = records.len();
    let n = figures.core.len();
    write_all_figures(report, at, figures);
    write_kind(report, at + 10 * n, Kind::End, n as u8);
}

// Writes a row's kind 2 record from a place on.
fn write_row(bytes: &mut [u8], at: usize, row: Row)
    requires { at + 13 ≤ length bytes.old }
    ensures { bytes.new ≡ take at bytes.old ++ row_record (row_of row) ++ drop (at + 13) bytes.old }
{
    numbers::put_bytes(bytes, at, &[u8::from(Kind::Row)]);
    numbers::put_number(bytes, at + 1, row.c);
    numbers::put_number(bytes, at + 5, row.d);
    numbers::put_number(bytes, at + 9, row.t);
}

// Writes a kind 2 record for each row from place 2 on: another record than a row's figures, of another length.
fn write_rows(bytes: &mut [u8], rows: &RowLists)
    requires { 2 + 13 * length rows.now.c.now ≤ length bytes.old }
    ensures { bytes.new ≡ take 2 bytes.old ++ flat_map row_record (rows_listed rows.now) ++ drop (2 + 13 * length rows.now.c.now) bytes.old }
{
    for i in 0..rows.c.len() {
        write_row(bytes, 2 + 13 * i, rows.row_at(i));
    }
}

// Writes a table: kind 1, a kind 2 for each row, kind 4.
pub fn write_table(bytes: &mut [u8], cores: usize, rows: &RowLists)
    requires few { (cores < 256) × (length rows.now.c.now ≤ 24) }
    requires in_bounds { 4 + 13 * length rows.now.c.now ≤ length bytes.old }
    ensures { bytes.new ≡ filled (table_bytes (record { cores = cores; rows = rows_listed rows.now })) bytes.old }
{
    write_kind(bytes, 0, Kind::Table, cores as u8);
    write_rows(bytes, rows);
    let n = rows.c.len();
    write_kind(bytes, 2 + 13 * n, Kind::End, n as u8);
}
