// The services for the front end in C, on numbers and byte strings: document 01, "What the certificate covers", and document 02, requests 1 and 2. A byte string is a
// pointer and a length in C; what C owes is that there are so many bytes, and that a lent byte string overlaps no other.
#![tactic(auto)]

ghost use Rattle.std.specs.Prelude.{◌≡◌, ◌/◌, ◌≤◌, min};
ghost use Rattle.std.specs.Result.{result_unwrap_or};
ghost use Rattle.answers.specs.Answer.{returned_by, number_of, row_of};
ghost use Rattle.theory.specs.Lists.{Answered};
ghost use Rattle.records.specs.ListBytes.{BytesAnswered};
ghost use Rattle.records.specs.ExplanationBytes.{BytesExplained};
ghost use Rattle.sets.specs.Stages.{limiting_of, point_of};
ghost use Rattle.entries.specs.Lists.{AreLists, AnsweredInBytes};
ghost use Rattle.entries.specs.Entry.{TableReturned, ListsReturned, SetReturned, PointReturned, ListingReturned, WhyReturned, TextReturned, TextTableReturned};

mod lists;

use answers::{Answer, Refusal};
use lists::Lists;
use sets::{ByPoints, ByTrial, Explanation, FindAllowances};

// An answer as C takes it: its number and its row.
#[repr(C)]
#[derive(Drop)]
pub struct EntryAnswer {
    pub number: u32,
    pub row: u32,
}

// An explanation as C takes it: the answer's number and row, the number of the limiting row, and the point.
#[repr(C)]
#[derive(Drop)]
pub struct EntryExplanation {
    pub number: u32,
    pub row: u32,
    pub limiting: u32,
    pub point: u32,
}

// What a service on a text gives as C takes it: the answer's number and row, and how many bytes were written.
#[repr(C)]
#[derive(Drop)]
pub struct EntryWritten {
    pub number: u32,
    pub row: u32,
    pub length: u32,
}

impl From<Answer> for EntryAnswer {
    ghost from_gives = { λ answer entry. (entry.number ≡ number_of answer) × (entry.row ≡ row_of answer) };

    fn from(answer: Answer) -> EntryAnswer {
        EntryAnswer {
            number: answers::number_of(answer),
            row: answers::row_of(answer),
        }
    }
}

// With a refusal the figures are 0.
impl From<Result<Explanation, Refusal>> for EntryExplanation {
    ghost from_gives = { λ answer entry.
        (entry.number ≡ number_of answer) × (entry.row ≡ row_of answer) × (entry.limiting ≡ limiting_of answer) × (entry.point ≡ point_of answer) };

    fn from(answer: Result<Explanation, Refusal>) -> EntryExplanation {
        match answer {
            Ok(explanation) => EntryExplanation {
                number: 0,
                row: 0,
                limiting: explanation.limiting,
                point: explanation.point,
            },
            Err(refusal) => EntryExplanation {
                number: refusal.number(),
                row: refusal.row(),
                limiting: 0,
                point: 0,
            },
        }
    }
}

// With a refusal no byte is written.
fn entry_written(written: Result<usize, Refusal>) -> EntryWritten
    requires { result_unwrap_or written 0 ≤ 1654 }
    ensures { (result.number ≡ number_of written) × (result.row ≡ row_of written) × (result.length ≡ result_unwrap_or written 0) }
{
    match written {
        Ok(length) => EntryWritten {
            number: 0,
            row: 0,
            length: length as u32,
        },
        Err(refusal) => EntryWritten {
            number: refusal.number(),
            row: refusal.row(),
            length: 0,
        },
    }
}

// The numbers of three byte strings that are lists of one length, 1 to 24 numbers of four bytes; others are refused before a number is read.
fn read_lists(c: &[u8], d: &[u8], t: &[u8]) -> Result<Lists, Refusal>
    ensures { AreLists c.now d.now t.now result }
{
    let bytes = c.len();
    if bytes % 4 != 0 || d.len() != bytes || t.len() != bytes || bytes < 4 || 96 < bytes {
        return Err(Refusal::RowsOutOfRange);
    }
    let cs = numbers::read_numbers(c);
    let ds = numbers::read_numbers(d);
    let ts = numbers::read_numbers(t);
    Ok(Lists {
        n: bytes / 4,
        c: cs,
        d: ds,
        t: ts,
    })
}

// How many numbers an answer list of so many bytes has, no more than there can be rows.
fn room(bytes: usize) -> usize
    ensures { result ≡ min 24 (bytes / 4) }
{
    (bytes / 4).min(24)
}

// A list service, by its way to find allowances.
trait ListService: FindAllowances {
    fn answer(
        c: &[u32],
        d: &[u32],
        t: &[u32],
        responses: &mut [u32],
        allowances: &mut [u32],
    ) -> Answer
        ensures { Answered Self.allowance c.now d.now t.now responses.old allowances.old (returned_by result) responses.new allowances.new };
}

impl ListService for ByTrial {
    fn answer(
        c: &[u32],
        d: &[u32],
        t: &[u32],
        responses: &mut [u32],
        allowances: &mut [u32],
    ) -> Answer {
        sets::set_service(c, d, t, responses, allowances)
    }
}

impl ListService for ByPoints {
    fn answer(
        c: &[u32],
        d: &[u32],
        t: &[u32],
        responses: &mut [u32],
        allowances: &mut [u32],
    ) -> Answer {
        sets::point_service(c, d, t, responses, allowances)
    }
}

// The list service with the answer lists as bytes: it fills arrays, and their numbers are written only when it accepts.
fn answer_in_bytes<F: ListService>(
    c: &[u32],
    d: &[u32],
    t: &[u32],
    responses: &mut [u8],
    allowances: &mut [u8],
) -> Answer
    ensures { AnsweredInBytes F.allowance c.now d.now t.now responses.old allowances.old (returned_by result) responses.new allowances.new }
{
    let mut response = [0u32; 24];
    let mut allowance = [0u32; 24];
    let r = room(responses.len());
    let a = room(allowances.len());
    F::answer(c, d, t, &mut response[..r], &mut allowance[..a])?;
    let n = c.len();
    numbers::put_numbers(responses, &response[..n]);
    numbers::put_numbers(allowances, &allowance[..n]);
    Ok(())
}

// The same with all lists as bytes.
fn answer_bytes<F: ListService>(
    c: &[u8],
    d: &[u8],
    t: &[u8],
    responses: &mut [u8],
    allowances: &mut [u8],
) -> Answer
    ensures { BytesAnswered F.allowance c.now d.now t.now responses.old allowances.old (returned_by result) responses.new allowances.new }
{
    let lists = read_lists(c, d, t)?;
    let n = lists.n;
    answer_in_bytes::<F>(
        &lists.c[..n],
        &lists.d[..n],
        &lists.t[..n],
        responses,
        allowances,
    )
}

// The explanation of a row, with the lists as bytes: read as for the list services, and asked of another service.
fn explain_bytes(c: &[u8], d: &[u8], t: &[u8], row: u32) -> Result<Explanation, Refusal>
    ensures { BytesExplained c.now d.now t.now row (returned_by result) (limiting_of result) (point_of result) }
{
    let lists = read_lists(c, d, t)?;
    let n = lists.n;
    sets::explain(&lists.c[..n], &lists.d[..n], &lists.t[..n], row)
}

// The table service.
#[unsafe(no_mangle)]
pub extern "C" fn hibalunduk_table(table: &[u8], report: &mut [u8]) -> EntryAnswer
    ensures { TableReturned table.now report.old result.number result.row report.new }
{
    EntryAnswer::from(tables::table_service(table, report))
}

// The set service.
#[unsafe(no_mangle)]
pub extern "C" fn hibalunduk_set(
    c: &[u8],
    d: &[u8],
    t: &[u8],
    responses: &mut [u8],
    allowances: &mut [u8],
) -> EntryAnswer
    ensures { SetReturned c.now d.now t.now responses.old allowances.old result.number result.row responses.new allowances.new }
{
    EntryAnswer::from(answer_bytes::<ByTrial>(c, d, t, responses, allowances))
}

// The point service.
#[unsafe(no_mangle)]
pub extern "C" fn hibalunduk_point(
    c: &[u8],
    d: &[u8],
    t: &[u8],
    responses: &mut [u8],
    allowances: &mut [u8],
) -> EntryAnswer
    ensures { PointReturned c.now d.now t.now responses.old allowances.old result.number result.row responses.new allowances.new }
{
    EntryAnswer::from(answer_bytes::<ByPoints>(c, d, t, responses, allowances))
}

// The listing of a table: how many bytes were written; 0, and nothing is, where they do not fit.
#[unsafe(no_mangle)]
pub extern "C" fn hibalunduk_listing(table: &[u8], listing: &mut [u8]) -> usize
    ensures { ListingReturned table.now listing.old result listing.new }
{
    tables::list_table(table, listing).unwrap_or(0)
}

// The explanation of a row: which row limits it, and at which point.
#[unsafe(no_mangle)]
pub extern "C" fn hibalunduk_why(c: &[u8], d: &[u8], t: &[u8], row: u32) -> EntryExplanation
    ensures { WhyReturned c.now d.now t.now row result.number result.row result.limiting result.point }
{
    EntryExplanation::from(explain_bytes(c, d, t, row))
}

// The certificate of a spreadsheet's text on a number of cores: the text with three columns more.
#[unsafe(no_mangle)]
pub extern "C" fn hibalunduk_csv(cores: u32, text: &[u8], lent: &mut [u8]) -> EntryWritten
    ensures { TextReturned cores text.now lent.old result.number result.row result.length lent.new }
{
    entry_written(spreadsheets::text_service(cores, text, lent))
}

// The table of a spreadsheet's text on a number of cores, as bytes.
#[unsafe(no_mangle)]
pub extern "C" fn hibalunduk_csv_table(cores: u32, text: &[u8], lent: &mut [u8]) -> EntryWritten
    ensures { TextTableReturned cores text.now lent.old result.number result.row result.length lent.new }
{
    entry_written(spreadsheets::table_of_text(cores, text, lent))
}
