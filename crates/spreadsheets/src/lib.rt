// The services on a spreadsheet's text: its certificate as a text with three columns more, and its table as bytes. Document 02, request 2.
#![tactic(auto)]

ghost use Rattle.std.specs.Result.{result_unwrap_or};
ghost use Rattle.answers.specs.Answer.{returned_by};
ghost use Rattle.placement.specs.Choice.{allowance_fit};
ghost use Rattle.service.specs.Text.{TextAnswered, TextTabled};

use answers::Refusal;

// The certificate of a text, and how many bytes it takes: the new text is written aside first, since its length decides whether it fits.
pub fn text_service(cores: u32, text: &[u8], lent: &mut [u8]) -> Result<usize, Refusal>
    ensures { TextAnswered allowance_fit cores text.now lent.old (returned_by result) (result_unwrap_or result 0) lent.new }
{
    let table = parsing::read_text(cores, text)?;
    let certificate = certifying::certificate_of(&table)?;
    let mut columns = [0u8; 1654];
    let rows = table.held.rows();
    let length = columns::write_text(&mut columns, &rows.lists(), &certificate.figures());
    if lent.len() < length {
        return Err(Refusal::OutputTooShort);
    }
    lent[..length].copy_from_slice(&columns[..length]);
    Ok(length)
}

// The table of a text as bytes, and how many they are.
pub fn table_of_text(cores: u32, text: &[u8], lent: &mut [u8]) -> Result<usize, Refusal>
    ensures { TextTabled cores text.now lent.old (returned_by result) (result_unwrap_or result 0) lent.new }
{
    let table = parsing::read_text(cores, text)?;
    let length = 4 + 13 * table.held.n;
    if lent.len() < length {
        return Err(Refusal::OutputTooShort);
    }
    reports::write_table(lent, table.cores, &table.held.rows().lists());
    Ok(length)
}
