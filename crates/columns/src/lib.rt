// The text of a certified table as bytes: document 02, request 2. Each writer puts its bytes behind the first `at` bytes of a text, whichever bytes are
// lent, and returns how many bytes then stand at its front.
#![tactic(auto)]

ghost use Rattle.std.specs.Prelude.{◌≡◌, ◌+◌, ◌*◌, ◌≤◌, [], ◌∷◌, ◌++◌, length, take};
ghost use Rattle.rows.specs.Values.{row_of, rows_listed, figures_of, figures_in};
ghost use Rattle.listing.specs.Listing.{decimal};
ghost use Rattle.texts.specs.Text.{comma};
ghost use Rattle.texts.specs.Columns.{certified_line, certified_lines, certified_text};

use rows::{FigureLists, Figures, Row, RowLists};

const HEADER: [u8; 46] = *b"wcet,deadline,period,core,response,allowance\r\n";

// Writes three fields, commas between them and one byte behind the last.
fn write_fields(
    text: &mut [u8],
    at: usize,
    first: u32,
    second: u32,
    third: u32,
    behind: u8,
) -> usize
    requires { at + 33 ≤ length text.old }
    ensures { (take result text.new ≡ take at text.old ++ (decimal first ++ (comma ∷ decimal second ++ (comma ∷ decimal third ++ (behind ∷ []))))) × (result ≤ at + 33) }
{
    let end = lines::write_number(text, at, first, b',');
    let end = lines::write_number(text, end, second, b',');
    lines::write_number(text, end, third, behind)
}

// Writes the line of a row and its figures.
fn write_line(text: &mut [u8], at: usize, row: Row, figures: Figures) -> usize
    requires { at + 67 ≤ length text.old }
    ensures { (take result text.new ≡ take at text.old ++ certified_line (row_of row) (figures_of figures)) × (result ≤ at + 67) }
{
    let end = write_fields(text, at, row.c, row.d, row.t, b',');
    let end = write_fields(
        text,
        end,
        figures.core,
        figures.response,
        figures.allowance,
        b'\r',
    );
    lines::write_bytes(text, end, b"\n")
}

// Writes a line for each row.
fn write_lines(text: &mut [u8], at: usize, rows: &RowLists, figures: &FigureLists) -> usize
    requires as_many { length figures.now.core.now ≡ length rows.now.c.now }
    requires room { at + 67 * length rows.now.c.now ≤ length text.old }
    ensures { (take result text.new ≡ take at text.old ++ certified_lines (rows_listed rows.now) (figures_in figures.now)) × (result ≤ at + 67 * length rows.now.c.now) }
{
    let mut end = at;
    for i in 0..rows.c.len() {
        end = write_line(text, end, rows.row_at(i), figures.figures_at(i));
    }
    end
}

// Writes the text of rows with their figures. It takes at most 1654 bytes: 46 for the header, 67 for each of 24 rows.
pub fn write_text(text: &mut [u8], rows: &RowLists, figures: &FigureLists) -> usize
    requires as_many { (length rows.now.c.now ≤ 24) × (length figures.now.core.now ≡ length rows.now.c.now) }
    requires room { 1654 ≤ length text.old }
    ensures { (take result text.new ≡ certified_text (rows_listed rows.now) (figures_in figures.now)) × (result ≤ 1654) }
{
    let end = lines::write_bytes(text, 0, &HEADER);
    write_lines(text, end, rows, figures)
}
