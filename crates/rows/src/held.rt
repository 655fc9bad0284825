// Rows within the limits that are held in arrays.
ghost use Rattle.std.specs.Prelude.{◌≡◌, ◌≤◌, take};
ghost use Rattle.theory.specs.Row.{AllWithin};
ghost use Rattle.rows.specs.Held.{held_rows, Held};

use crate::Rows;

// n rows within the limits, 1 to 24, their C, D and T at the fronts of three arrays: there is no heap.
#[derive(Clone, Copy)]
pub struct HeldRows {
    pub n: usize,
    pub c: [u32; 24],
    pub d: [u32; 24],
    pub t: [u32; 24],
    ghost held: { Held n c d t },
    ghost some_row: { 1 ≤ n },
    ghost within: { AllWithin (held_rows n c d t) },
}

impl HeldRows {
    // The rows as lists.
    pub fn rows(&self) -> Rows<'_>
        ensures c { result.c.now ≡ take self.now.n self.now.c }
        ensures d { result.d.now ≡ take self.now.n self.now.d }
        ensures t { result.t.now ≡ take self.now.n self.now.t }
    {
        Rows {
            c: &self.c[..self.n],
            d: &self.d[..self.n],
            t: &self.t[..self.n],
        }
    }
}
