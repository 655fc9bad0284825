// The placement of a table's rows: document 01, "Placement", Allowance-Fit-Decreasing on a table in memory.
#![tactic(auto)]

ghost use Rattle.std.specs.Prelude.{◌≡◌, ◌≤◌, ◌<◌, map, ltb, length, replicate};
ghost use Rattle.theory.specs.Gather.{insert, All};
ghost use Rattle.theory.specs.Row.{row_at};
ghost use Rattle.placement.specs.Choice.{allowance_fit};
ghost use Rattle.rows.specs.Values.{rows_in};
ghost use Rattle.cores.specs.Cores.{HoldsCores, HeldWithout};
ghost use Rattle.fits.specs.Fit.{IsFit};
ghost use Rattle.choices.specs.Among.{IsChoiceAmong};
ghost use Rattle.placing.specs.Considered.{considered};
ghost use Rattle.placing.specs.Placed.{table_in, IsPlaced};

use answers::{Answer, Refusal};
use choices::Candidate;
use cores::Cores;
use rows::Rows;

// The core allowance of the rows at these places, where a core takes them.
fn fit_at(rows: &Rows, places: &[usize]) -> Option<u32>
    requires { (1 ≤ length places.now) × (length places.now ≤ 24) × All (λ h. h < length rows.now.c.now) places.now }
    ensures { IsFit (map (row_at (rows_in rows.now)) places.now) result }
{
    fits::fit_of(&climbs::rows_at(rows, places).rows())
}

// The core allowance of the rows at these places and row i, where a core takes them.
fn fit_with(rows: &Rows, places: &[usize], i: usize) -> Option<u32>
    requires { (length places.now < 24) × (i < length rows.now.c.now) × All (λ h. h < length rows.now.c.now) places.now }
    ensures { IsFit (map (row_at (rows_in rows.now)) (insert ltb i places.now)) result }
{
    let joined = cores::join(places, i);
    fit_at(rows, &joined[..=places.len()])
}

// The choice with one core more, by whether it takes the row.
fn choice_after(choice: Option<Candidate>, core: usize, fit: Option<u32>) -> Option<Candidate>
    ensures { result ≡ considered allowance_fit choice core fit }
{
    match fit {
        Some(allowance) => choices::choice_with(choice, Candidate { core, allowance }),
        None => choice,
    }
}

// The choice for row i between the cores.
fn choose(rows: &Rows, cores: usize, held: &Cores, i: usize) -> Option<Candidate>
    requires cores_bound { (cores ≤ 8) × (i < length rows.now.c.now) }
    requires held_without { HeldWithout (length rows.now.c.now) i held.now.rows held.now.counts }
    ensures { (without : HeldWithout (length rows.now.c.now) i held.now.rows held.now.counts) → IsChoiceAmong allowance_fit (table_in cores rows.now) without.assignment i cores result }
{
    let mut choice = None;
    for m in 0..cores {
        choice = choice_after(choice, m + 1, fit_with(rows, held.places(m), i));
    }
    choice
}

// Places the rows of a table in the order in which they are taken: `core` then has each row's core, and the cores have their rows.
pub fn place_rows(rows: &Rows, cores: usize, core: &mut [u32], held: &mut Cores) -> Answer
    requires cores_bound { cores ≤ 8 }
    requires core_value { (core.old ≡ replicate (length rows.now.c.now) 0) × HoldsCores core.old held.old.rows held.old.counts }
    ensures { IsPlaced allowance_fit (table_in cores rows.now) core.new held.new.rows held.new.counts result }
{
    let order = orders::taking_order(rows.c, rows.t);
    for j in 0..rows.c.len() {
        let i = order[j];
        let refusal = Refusal::NoCoreTakes(i as u32 + 1);
        let candidate = choose(rows, cores, held, i).ok_or(refusal)?;
        core[i] = candidate.core as u32;
        held.put(candidate.core - 1, i);
    }
    Ok(())
}
