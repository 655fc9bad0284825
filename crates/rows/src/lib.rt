// What document 01 names together, as one value: a row, the rows of a set, a row's figures, the figures of all rows. Rows and figures lie in memory as lists,
// one for each of their parts, as C lends them.
#![tactic(auto)]

ghost use Rattle.std.specs.Prelude.{◌≡◌, ◌<◌, length, get_or};
ghost use Rattle.theory.specs.Row.{AllWithin};
ghost use Rattle.theory.specs.Lists.{Shaped, rows_of};

mod held;

pub use held::HeldRows;

// A row, within the limits or not.
#[derive(Clone, Copy)]
pub struct Row {
    pub c: u32,
    pub d: u32,
    pub t: u32,
}

// Rows, within the limits or not, as lists of C, D and T of one length.
#[derive(Clone, Copy)]
pub struct RowLists<'a> {
    pub c: &'a [u32],
    pub d: &'a [u32],
    pub t: &'a [u32],
    ghost as_many_deadlines: { length d.now ≡ length c.now },
    ghost as_many_periods: { length t.now ≡ length c.now },
}

// Rows within the limits, 1 to 24, as lists of C, D and T.
#[derive(Clone, Copy)]
pub struct Rows<'a> {
    pub c: &'a [u32],
    pub d: &'a [u32],
    pub t: &'a [u32],
    ghost shaped: { Shaped c.now d.now t.now },
    ghost within: { AllWithin (rows_of c.now d.now t.now) },
}

// A row's figures: its core, its response time and its allowance.
#[derive(Clone, Copy)]
pub struct Figures {
    pub core: u32,
    pub response: u32,
    pub allowance: u32,
}

// The figures of all rows, as lists of one length.
#[derive(Clone, Copy)]
pub struct FigureLists<'a> {
    pub core: &'a [u32],
    pub response: &'a [u32],
    pub allowance: &'a [u32],
    ghost as_many_responses: { length response.now ≡ length core.now },
    ghost as_many_allowances: { length allowance.now ≡ length core.now },
}

impl RowLists<'_> {
    // The row at a place.
    pub fn row_at(&self, i: usize) -> Row
        requires { i < length self.now.c.now }
        ensures { result ≡ record { c = get_or self.now.c.now i 0; d = get_or self.now.d.now i 0; t = get_or self.now.t.now i 0 } }
    {
        Row {
            c: self.c[i],
            d: self.d[i],
            t: self.t[i],
        }
    }
}

impl Rows<'_> {
    // The rows as lists, whatever their limits.
    pub fn lists(&self) -> RowLists<'_>
        ensures c { result.c.now ≡ self.now.c.now }
        ensures d { result.d.now ≡ self.now.d.now }
        ensures t { result.t.now ≡ self.now.t.now }
    {
        RowLists {
            c: self.c,
            d: self.d,
            t: self.t,
        }
    }
}

impl FigureLists<'_> {
    // The figures of the row at a place.
    pub fn figures_at(&self, i: usize) -> Figures
        requires { i < length self.now.core.now }
        ensures { result ≡ record { core = get_or self.now.core.now i 0; response = get_or self.now.response.now i 0; allowance = get_or self.now.allowance.now i 0 } }
    {
        Figures {
            core: self.core[i],
            response: self.response[i],
            allowance: self.allowance[i],
        }
    }
}
