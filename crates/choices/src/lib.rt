// The choice between candidates: document 01, "Placement". The rule of choice stands here alone.
#![tactic(auto)]

ghost use Rattle.std.specs.Prelude.{◌≡◌};
ghost use Rattle.placement.specs.Choice.{allowance_fit};
ghost use Rattle.choices.specs.Among.{candidate_of, counted};

// A core that takes a row, by its number, with its core allowance.
#[derive(Clone, Copy)]
pub struct Candidate {
    pub core: usize,
    pub allowance: u32,
}

// The rule of choice: whether a candidate is preferred to another.
fn preferred(candidate: Candidate, other: Candidate) -> bool
    ensures { result ≡ allowance_fit (candidate_of candidate) (candidate_of other) }
{
    (other.allowance, candidate.core) < (candidate.allowance, other.core)
}

// The choice with one candidate more; None is no core.
pub fn choice_with(choice: Option<Candidate>, candidate: Candidate) -> Option<Candidate>
    ensures { result ≡ counted allowance_fit choice candidate }
{
    match choice {
        Some(other) if !preferred(candidate, other) => Some(other),
        _ => Some(candidate),
    }
}
