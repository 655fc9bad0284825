// The rows of a core, by their places in the table: joined by another, and kept for each core. Document 01, "Placement".
#![tactic(auto)]

ghost use Rattle.std.specs.Prelude.{◌≡◌, ℕ, suc, ◌≤◌, ◌<◌, ltb, length, take, set, replicate, get_or};
ghost use Rattle.theory.specs.Gather.{insert};
ghost use Rattle.cores.specs.Cores.{held_places, HoldsCores, HeldWithout};

use sorting::Order;

// The order in which rows stand in the table.
struct ByPlace;

impl Order for ByPlace {
    ghost knows = { λ _ _. Unit {0} };

    ghost precedes = { λ _. ltb };

    fn precedes(&self, i: usize, j: usize) -> bool {
        i < j
    }
}

// Places with place i put before the first that is greater, at the front.
pub fn join(places: &[usize], i: usize) -> [usize; 24]
    requires { length places.now < 24 }
    ensures result_value { take (suc (length places.now)) result ≡ insert ltb i places.now }
    ensures result_len { length result ≡ 24 }
{
    let n = places.len() + 1;
    let mut joined = [0usize; 24];
    joined[1..n].copy_from_slice(places);
    sorting::put_in_order(&mut joined[..n], i, &ByPlace);
    joined
}

// The rows of each core, by their places: as many as are counted, at the front of its array.
#[derive(Drop)]
pub struct Cores {
    pub rows: [[usize; 24]; 8],
    pub counts: [usize; 8],
    ghost inside: { (m : ℕ) → m < 8 → get_or counts m 0 ≤ 24 },
}

impl Cores {
    // At the start no core has a row.
    pub fn with_no_rows() -> Cores
        ensures { (n : ℕ) → HoldsCores (replicate n 0) result.rows result.counts }
    {
        Cores {
            rows: [[0; 24]; 8],
            counts: [0; 8],
        }
    }

    // The places of the rows of core m + 1.
    pub fn places(&self, m: usize) -> &[usize]
        requires { m < 8 }
        ensures { result.now ≡ held_places self.now.rows self.now.counts m }
    {
        &self.rows[m][..self.counts[m]]
    }

    // Puts row i on core m + 1.
    pub fn put(&mut self, m: usize, i: usize)
        requires m_bound { m < 8 }
        requires held_without { (n : ℕ) × (i < n) × (n ≤ 24) × HeldWithout n i self.old.rows self.old.counts }
        ensures { (n : ℕ) → i < n → (held : HeldWithout n i self.old.rows self.old.counts) → HoldsCores (set held.assignment i (suc m)) self.new.rows self.new.counts }
    {
        self.rows[m] = join(self.places(m), i);
        self.counts[m] += 1;
    }
}
