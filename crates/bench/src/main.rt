// The bench program of document 01, "The listing": reads a table from standard input and prints its listing, or the line of its refusal.
#![tactic(auto)]

ghost use Rattle.std.specs.Prelude.{◌≤◌, length};
ghost use Rattle.bench.specs.Input.{InFront};
ghost use Rattle.bench.specs.Lines.{HasLines};

use std::io;
use std::io::Read;

// Reads until the buffer is full or the input ends, and counts the bytes; a read may fail.
fn read_input<R: Read>(reader: &mut R, buffer: &mut [u8]) -> io::Result<usize>
    ensures { InFront result buffer.new }
{
    let mut n = 0;
    while n < buffer.len() {
        match reader.read(&mut buffer[n..])? {
            0 => break,
            more => n += more,
        }
    }
    Ok(n)
}

// The lines for a table, at the front of a text that has room for those of any (`always_written`); gives how many bytes they are.
fn lines_of(table: &[u8], text: &mut [u8]) -> usize
    requires { 1102 ≤ length text.old }
    ensures { HasLines table.now text.new result }
{
    tables::list_table(table, text).unwrap()
}

// Prints the lines for a table.
fn print_listing(rt: &impl Print, table: &[u8]) -> io::Result<()> {
    let mut text = [0u8; 1102];
    let n = lines_of(table, &mut text);
    rt.write_all(&text[..n])
}

// No table is longer than 316 bytes, and the first 317 of any input tell what is printed (`listed_from_front`): input that is longer is refused as it would be
// whole. Where a read fails what came is not taken for a table, and a record is missing, as where nothing came. Where a write fails, main ends with its error.
fn main(rt: HostRuntime) -> io::Result<()> {
    let mut buffer = [0u8; 317];
    let n = read_input(&mut rt.stdin(), &mut buffer).unwrap_or(0);
    print_listing(&rt, &buffer[..n])
}
