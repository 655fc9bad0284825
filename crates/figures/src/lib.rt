// The response time and the allowance of each placed row: document 01, "Rank and response time" and "Allowance", core by core.
#![tactic(auto)]

ghost use Rattle.std.specs.Prelude.{◌≡◌, ℕ, ◌≤◌, ◌<◌, map, length, get_or};
ghost use Rattle.theory.specs.Gather.{All};
ghost use Rattle.theory.specs.Row.{row_at};
ghost use Rattle.theory.specs.Response.{AllMeet};
ghost use Rattle.theory.specs.Allowance.{IsAllowance};
ghost use Rattle.rows.specs.Values.{rows_in};
ghost use Rattle.figures.specs.Scattered.{scattered};
ghost use Rattle.figures.specs.Figured.{CoreFigured};
ghost use Rattle.figures.specs.Placed.{PlacedRows, HasFigures};

use cores::Cores;
use responses::Timed;
use rows::Rows;

// Writes numbers to places of a list.
fn scatter(list: &mut [u32], places: &[usize], numbers: &[u32])
    requires { (length numbers.now ≡ length places.now) × All (λ h. h < length list.old) places.now }
    ensures { list.new ≡ scattered list.old places.now numbers.now }
{
    for (&place, &number) in places.iter().zip(numbers) {
        list[place] = number;
    }
}

// The allowance of each row of a core, whose rows are all on time. Few rows have few points; more are tried by climbs, and by points where a climb takes long.
fn allowances_of(timed: &Timed) -> [u32; 24]
    ensures allowances { (i : ℕ) → i < length timed.now.set.now.rows.c.now → IsAllowance (rows_in timed.now.set.now.rows) i (get_or result i 0) }
    ensures long { length result ≡ 24 }
{
    let set = timed.set;
    if 6 < set.rows.c.len() {
        if let Ok(allowances) = trials::short_allowances(timed, 3000) {
            return allowances;
        }
    }
    points::allowances_by_points(set)
}

// Writes the response times and allowances of a core's rows, which all meet, to the rows' places.
fn write_core(rows: &Rows, places: &[usize], responses: &mut [u32], allowances: &mut [u32])
    requires all_meet { AllMeet (rows_in rows.now) }
    requires places_len { (length places.now ≡ length rows.now.c.now) × All (λ h. h < length responses.old) places.now × All (λ h. h < length allowances.old) places.now }
    ensures { CoreFigured (rows_in rows.now) places.now responses.old allowances.old responses.new allowances.new }
{
    let n = places.len();
    let set = climbs::ranked(*rows);
    let timed = responses::responses_of(&set).unwrap();
    let core_allowances = allowances_of(&timed);
    scatter(responses, places, &timed.response[..n]);
    scatter(allowances, places, &core_allowances[..n]);
}

// Writes the response times and allowances of the rows at these places, which are a core's.
fn write_at(rows: &Rows, places: &[usize], responses: &mut [u32], allowances: &mut [u32])
    requires places_len_bound { (length places.now ≤ 24) × All (λ h. h < length rows.now.c.now) places.now }
    requires all_meet { AllMeet (map (row_at (rows_in rows.now)) places.now) }
    requires responses_len { (length responses.old ≡ length rows.now.c.now) × (length allowances.old ≡ length rows.now.c.now) }
    ensures { CoreFigured (map (row_at (rows_in rows.now)) places.now) places.now responses.old allowances.old responses.new allowances.new }
{
    if places.is_empty() {
        return;
    }
    let on_core = climbs::rows_at(rows, places);
    write_core(&on_core.rows(), places, responses, allowances);
}

// Writes each placed row's response time and allowance.
pub fn write_figures(rows: &Rows, held: &Cores, responses: &mut [u32], allowances: &mut [u32])
    requires placed_rows { PlacedRows (rows_in rows.now) held.now.rows held.now.counts }
    requires responses_len { (length responses.old ≡ length rows.now.c.now) × (length allowances.old ≡ length rows.now.c.now) }
    ensures { (placed : PlacedRows (rows_in rows.now) held.now.rows held.now.counts) → (i : ℕ) → i < length rows.now.c.now → HasFigures (rows_in rows.now) placed.assignment responses.new allowances.new i }
{
    for m in 0..8 {
        write_at(rows, held.places(m), responses, allowances);
    }
}
