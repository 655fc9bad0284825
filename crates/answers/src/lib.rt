// The answers of the services: document 01, "Refusal numbers", and what document 02 adds. `specs/` says what number and row each returns.
#![tactic(auto)]

ghost use Rattle.std.specs.Prelude.{◌≡◌};
ghost use Rattle.answers.specs.Answer.{number_of, row_of, refused_with};

// Why a call is refused; the number beside a name is the row or the line that it names, from 1.
#[derive(Clone, Copy, Debug, PartialEq, Eq)]
pub enum Refusal {
    RecordsBroken,
    CoresOutOfRange,
    RowsOutOfRange,
    RowBreaksLimits(u32),
    CountDiffers,
    NoCoreTakes(u32),
    OutputTooShort,
    RowMisses(u32),
    LineBroken(u32),
    RowNotInSet,
}

// What a call comes to that writes what it gives.
pub type Answer = Result<(), Refusal>;

impl Refusal {
    // The number that the documents give it.
    pub fn number(self) -> u32
        ensures { result ≡ (refused_with self).number }
    {
        match self {
            Refusal::RecordsBroken => 1,
            Refusal::CoresOutOfRange => 2,
            Refusal::RowsOutOfRange => 3,
            Refusal::RowBreaksLimits(_) => 4,
            Refusal::CountDiffers => 5,
            Refusal::NoCoreTakes(_) => 6,
            Refusal::OutputTooShort => 7,
            Refusal::RowMisses(_) => 8,
            Refusal::LineBroken(_) => 9,
            Refusal::RowNotInSet => 10,
        }
    }

    // The row or the line that it names; 0 where it names none.
    pub fn row(self) -> u32
        ensures { result ≡ (refused_with self).row }
    {
        match self {
            Refusal::RowBreaksLimits(row) => row,
            Refusal::NoCoreTakes(row) => row,
            Refusal::RowMisses(row) => row,
            Refusal::LineBroken(line) => line,
            Refusal::RecordsBroken
            | Refusal::CoresOutOfRange
            | Refusal::RowsOutOfRange
            | Refusal::CountDiffers
            | Refusal::OutputTooShort
            | Refusal::RowNotInSet => 0,
        }
    }
}

// The number of an answer: 0 for an accepted call, else the refusal's.
pub fn number_of(answer: Answer) -> u32
    ensures { result ≡ number_of answer }
{
    match answer {
        Ok(()) => 0,
        Err(refusal) => refusal.number(),
    }
}

// The row of an answer, from 1; 0 where it names none.
pub fn row_of(answer: Answer) -> u32
    ensures { result ≡ row_of answer }
{
    match answer {
        Ok(()) => 0,
        Err(refusal) => refusal.row(),
    }
}
