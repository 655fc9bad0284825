// The table service, from table bytes to report bytes, and the listing of a table: document 01, "Records", "Refusal numbers" and "The listing".
#![tactic(auto)]

ghost use Rattle.std.specs.Prelude.{◌≡◌, ◌≤◌, MatchResult, IfSome, length, take};
ghost use Rattle.std.specs.Option.{unwrap_or};
ghost use Rattle.answers.specs.Answer.{refused_with, returned_by};
ghost use Rattle.placement.specs.Choice.{allowance_fit};
ghost use Rattle.listing.specs.Listing.{refusal};
ghost use Rattle.service.specs.Table.{TableAnswered, Listed, ListingAnswered};

use answers::{Answer, Refusal};

// The table service.
pub fn table_service(table: &[u8], report: &mut [u8]) -> Answer
    ensures { TableAnswered allowance_fit table.now report.old (returned_by result) report.new }
{
    let read = reading::read_table(table)?;
    let n = read.held.n;
    if report.len() < 4 + 23 * n {
        return Err(Refusal::OutputTooShort);
    }
    let certificate = certifying::certificate_of(&read)?;
    reports::write_report(&table[..2 + 13 * n], &certificate.figures(), report);
    Ok(())
}

// Writes the lines of a table's listing at the front of a text; or gives its refusal.
fn write_listing(table: &[u8], text: &mut [u8]) -> Result<usize, Refusal>
    requires { 1102 ≤ length text.old }
    ensures { MatchResult result
        (λ n. Listed allowance_fit table.now (take n text.new) × (n ≤ 1102))
        (λ refused. Listed allowance_fit table.now (refusal (refused_with refused).number (refused_with refused).row)) }
{
    let read = reading::read_table(table)?;
    let certificate = certifying::certificate_of(&read)?;
    Ok(lines::write_listing(text, &certificate.figures()))
}

// Writes the lines of a table's listing, or of its refusal, at the front of a text.
fn write_lines(table: &[u8], text: &mut [u8]) -> usize
    requires { 1102 ≤ length text.old }
    ensures { Listed allowance_fit table.now (take result text.new) × (result ≤ 1102) }
{
    match write_listing(table, text) {
        Ok(n) => n,
        Err(refused) => lines::write_refusal(text, Err(refused)),
    }
}

// The listing of a table: how many bytes were written; none, and nothing is, where they do not fit.
pub fn list_table(table: &[u8], listing: &mut [u8]) -> Option<usize>
    ensures answered { ListingAnswered allowance_fit table.now listing.old (unwrap_or result 0) listing.new }
    ensures some { IfSome result (λ n. 1 ≤ n) }
{
    let mut text = [0u8; 1102];
    let n = write_lines(table, &mut text);
    if listing.len() < n {
        return None;
    }
    listing[..n].copy_from_slice(&text[..n]);
    Some(n)
}
