// The lines of the listing as bytes: document 01, "The listing". Each writer puts its bytes behind the first `at` bytes of a text, whichever bytes are lent, and returns
// how many bytes then stand at its front.
#![tactic(auto)]

ghost use Rattle.std.specs.Prelude.{◌≡◌, ◌+◌, ◌*◌, ◌≤◌, [], ◌∷◌, ◌++◌, min, length, take};
ghost use Rattle.std.specs.Option.{unwrap_or};
ghost use Rattle.std.specs.List.{reduce};
ghost use Rattle.answers.specs.Answer.{number_of, row_of};
ghost use Rattle.rows.specs.Values.{figures_of, figures_in};
ghost use Rattle.listing.specs.Listing.{decimal, row_line, row_lines, listing, refusal};

use answers::Answer;
use itoa::Buffer;
use rows::{FigureLists, Figures};

const HEADER: [u8; 28] = *b"row core response allowance\n";

// Writes bytes as they are.
pub fn write_bytes(text: &mut [u8], at: usize, part: &[u8]) -> usize
    requires { at + length part.now ≤ length text.old }
    ensures { (take result text.new ≡ take at text.old ++ part.now) × (result ≡ at + length part.now) }
{
    let end = at + part.len();
    text[at..end].copy_from_slice(part);
    end
}

// Writes a number in decimal digits and one byte behind it.
pub fn write_number(text: &mut [u8], at: usize, n: u32, behind: u8) -> usize
    requires { at + 11 ≤ length text.old }
    ensures { (take result text.new ≡ take at text.old ++ (decimal n ++ (behind ∷ []))) × (result ≤ at + 11) }
{
    let mut digits = Buffer::new();
    let end = write_bytes(text, at, digits.format(n).as_bytes());
    write_bytes(text, end, &[behind])
}

// Writes the line of a row.
fn write_row(text: &mut [u8], at: usize, number: u32, figures: Figures) -> usize
    requires { at + 44 ≤ length text.old }
    ensures { (take result text.new ≡ take at text.old ++ row_line number (figures_of figures)) × (result ≤ at + 44) }
{
    let end = write_number(text, at, number, b' ');
    let end = write_number(text, end, figures.core, b' ');
    let end = write_number(text, end, figures.response, b' ');
    write_number(text, end, figures.allowance, b'\n')
}

// Writes a line for each row.
fn write_rows(text: &mut [u8], at: usize, figures: &FigureLists) -> usize
    requires few { length figures.now.core.now ≤ 24 }
    requires room { at + 44 * length figures.now.core.now ≤ length text.old }
    ensures { (take result text.new ≡ take at text.old ++ row_lines 1 (figures_in figures.now)) × (result ≤ at + 44 * length figures.now.core.now) }
{
    let mut end = at;
    for i in 0..figures.core.len() {
        end = write_row(text, end, i as u32 + 1, figures.figures_at(i));
    }
    end
}

// The smallest of some numbers; 0 where there is none.
fn smallest(numbers: &[u32]) -> u32
    ensures { result ≡ unwrap_or (reduce min numbers.now) 0 }
{
    numbers.iter().copied().min().unwrap_or(0)
}

// Writes the listing of rows with their figures. It takes at most 1102 bytes: 28 for the header, 44 for each of 24 rows, 18 for the last line.
pub fn write_listing(text: &mut [u8], figures: &FigureLists) -> usize
    requires few { length figures.now.core.now ≤ 24 }
    requires room { 1102 ≤ length text.old }
    ensures { (take result text.new ≡ listing (figures_in figures.now)) × (result ≤ 1102) }
{
    let end = write_bytes(text, 0, &HEADER);
    let end = write_rows(text, end, figures);
    let end = write_bytes(text, end, b"system ");
    write_number(text, end, smallest(figures.allowance), b'\n')
}

// Writes the line of a refusal.
pub fn write_refusal(text: &mut [u8], answer: Answer) -> usize
    requires { 1102 ≤ length text.old }
    ensures { (take result text.new ≡ refusal (number_of answer) (row_of answer)) × (result ≤ 1102) }
{
    let end = write_bytes(text, 0, b"refused ");
    let end = write_number(text, end, answers::number_of(answer), b' ');
    let end = write_bytes(text, end, b"row ");
    write_number(text, end, answers::row_of(answer), b'\n')
}
