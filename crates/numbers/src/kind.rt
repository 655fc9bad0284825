// The kinds of records, each a byte that stands first in its record: document 01, "Records".
ghost use Rattle.std.specs.Prelude.{◌≡◌};
ghost use Rattle.numbers.specs.Kind.{byte_of, IsKind};

// A table begins with its number of cores, and ends with its number of rows, as a report does.
#[derive(Clone, Copy, Debug, PartialEq, Eq)]
pub enum Kind {
    Table,
    Row,
    Figures,
    End,
}

// A byte that no kind has.
#[derive(Clone, Copy, Debug, PartialEq, Eq)]
pub struct UnknownKind;

impl From<Kind> for u8 {
    ghost from_gives = { λ kind byte. byte ≡ byte_of kind };

    fn from(kind: Kind) -> u8 {
        match kind {
            Kind::Table => 1,
            Kind::Row => 2,
            Kind::Figures => 3,
            Kind::End => 4,
        }
    }
}

impl TryFrom<u8> for Kind {
    type Error = UnknownKind;

    ghost try_from_gives = { IsKind };

    fn try_from(byte: u8) -> Result<Kind, UnknownKind> {
        match byte {
            1 => Ok(Kind::Table),
            2 => Ok(Kind::Row),
            3 => Ok(Kind::Figures),
            4 => Ok(Kind::End),
            _ => Err(UnknownKind),
        }
    }
}
