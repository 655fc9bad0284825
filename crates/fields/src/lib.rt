// The fields and lines of a text, read once from the front: document 02, request 2. Each reader gives what is left behind what it read.
#![tactic(auto)]

ghost use Rattle.std.specs.Prelude.{◌≡◌, ◌++◌, ◌<◌, length, option_copied};
ghost use Rattle.theory.specs.Gather.{All};
ghost use Rattle.texts.specs.Rest.{Plain};
ghost use Rattle.fields.specs.Found.{Behind, comma_behind, line_end_behind, opening, IsDigits, IsFieldEnd, IsField, IsName, IsBetween, IsFieldThen, IsNameThen, IsHeader, IsLine};

use rows::Row;

// What has to stand behind a field.
trait Separator {
    ghost kind: { Behind };

    // What is left behind it, where it stands at the front of a text.
    fn behind(text: &[u8]) -> Option<&[u8]>
        ensures { IsBetween kind text.now (option_copied result) };
}

struct Comma;

struct LineEnd;

impl Separator for Comma {
    ghost kind = { comma_behind };

    fn behind(text: &[u8]) -> Option<&[u8]> {
        text.strip_prefix(b",")
    }
}

// LF, CR LF, or the end of the text.
impl Separator for LineEnd {
    ghost kind = { line_end_behind };

    fn behind(text: &[u8]) -> Option<&[u8]> {
        if text.is_empty() {
            return Some(text);
        }
        if let Some(rest) = text.strip_prefix(b"\n") {
            return Some(rest);
        }
        text.strip_prefix(b"\r\n")
    }
}

// A number as it is held, and what is left behind its digits or its field.
#[derive(Clone, Copy)]
struct Number<'a> {
    value: u32,
    rest: &'a [u8],
}

// A line that is a row: the row as it is held, and what is left behind the line.
#[derive(Clone, Copy)]
pub struct Line<'a> {
    pub row: Row,
    pub rest: &'a [u8],
}

// The digits at the front of a text.
fn read_digits(text: &[u8]) -> Number<'_>
    ensures { IsDigits text.now result }
{
    let mut value = 0u32;
    for (many, byte) in text.iter().enumerate() {
        if !byte.is_ascii_digit() {
            return Number {
                value,
                rest: &text[many..],
            };
        }
        value = (value * 10 + u32::from(byte - b'0')).min(1_000_001);
    }
    Number { value, rest: &[] }
}

// The text from the content of its first field on, which stands behind the quote that opens the field.
fn content_of(text: &[u8]) -> &[u8]
    ensures { text.now ≡ opening text.now ++ result.now }
{
    text.strip_prefix(b"\"").unwrap_or(text)
}

// What is left behind the first field of a text, by what is left behind its content: a quote closes it where one opens it.
fn field_end<'a>(text: &[u8], end: &'a [u8]) -> Option<&'a [u8]>
    ensures { IsFieldEnd text.now end.now (option_copied result) }
{
    if text.starts_with(b"\"") {
        return end.strip_prefix(b"\"");
    }
    Some(end)
}

// The first field of a text, where a number is wanted.
fn read_number(text: &[u8]) -> Option<Number<'_>>
    ensures { IsField text.now result }
{
    let content = content_of(text);
    let digits = read_digits(content);
    if digits.rest.len() == content.len() {
        return None;
    }
    let rest = field_end(text, digits.rest)?;
    Some(Number {
        value: digits.value,
        rest,
    })
}

// The first field of a text, where a name is wanted.
fn read_name<'a>(text: &'a [u8], name: &[u8]) -> Option<&'a [u8]>
    requires { (0 < length name.now) × All Plain name.now }
    ensures { IsName name.now text.now (option_copied result) }
{
    let end = content_of(text).strip_prefix(name)?;
    field_end(text, end)
}

// The first field of a text, where a number is wanted and something behind it.
fn number_then<S: Separator>(text: &[u8]) -> Option<Number<'_>>
    ensures { IsFieldThen S.kind text.now result }
{
    let number = read_number(text)?;
    let rest = S::behind(number.rest)?;
    Some(Number {
        value: number.value,
        rest,
    })
}

// The first field of a text, where a name is wanted and something behind it. A name gives no value, and a number is no prefix that is known.
fn name_then<'a, S: Separator>(text: &'a [u8], name: &[u8]) -> Option<&'a [u8]>
    requires { (0 < length name.now) × All Plain name.now }
    ensures { IsNameThen S.kind name.now text.now (option_copied result) }
{
    let end = read_name(text, name)?;
    S::behind(end)
}

// What is left behind the header of a text.
pub fn read_header(text: &[u8]) -> Option<&[u8]>
    ensures { IsHeader text.now (option_copied result) }
{
    let second = name_then::<Comma>(text, b"wcet")?;
    let third = name_then::<Comma>(second, b"deadline")?;
    name_then::<LineEnd>(third, b"period")
}

// The first line of a text, where a row is wanted.
pub fn read_line(text: &[u8]) -> Option<Line<'_>>
    ensures { IsLine text.now result }
{
    let c = number_then::<Comma>(text)?;
    let d = number_then::<Comma>(c.rest)?;
    let t = number_then::<LineEnd>(d.rest)?;
    Some(Line {
        row: Row {
            c: c.value,
            d: d.value,
            t: t.value,
        },
        rest: t.rest,
    })
}
