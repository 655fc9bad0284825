// The certificate of a table in memory.
ghost use Rattle.std.specs.Prelude.{◌≡◌, take};
ghost use Rattle.certificates.specs.Long.{Long};

use rows::FigureLists;

// The figures of n rows, at the fronts of three arrays.
#[derive(Clone, Copy)]
pub struct Certificate {
    pub n: usize,
    pub core: [u32; 24],
    pub response: [u32; 24],
    pub allowance: [u32; 24],
    ghost long: { Long n core response allowance },
}

impl Certificate {
    // The figures of all rows.
    pub fn figures(&self) -> FigureLists<'_>
        ensures core { result.core.now ≡ take self.now.n self.now.core }
        ensures response { result.response.now ≡ take self.now.n self.now.response }
        ensures allowance { result.allowance.now ≡ take self.now.n self.now.allowance }
    {
        FigureLists {
            core: &self.core[..self.n],
            response: &self.response[..self.n],
            allowance: &self.allowance[..self.n],
        }
    }
}
