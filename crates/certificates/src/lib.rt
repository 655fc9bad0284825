// The certificate of a table in memory: for each row its core, its response time and its allowance, or the row that no core takes. Document 01, "Placement" and
// "Allowance".
#![tactic(auto)]

ghost use Rattle.std.specs.Prelude.{◌≤◌};
ghost use Rattle.placing.specs.Placed.{table_in};
ghost use Rattle.certificates.specs.Held.{IsHeld};

use answers::Refusal;
use cores::Cores;
use rows::Rows;

mod certificate;

pub use certificate::Certificate;

// Certifies a table, or refuses it with the row that no core takes.
pub fn certify(cores: usize, rows: &Rows) -> Result<Certificate, Refusal>
    requires { cores ≤ 8 }
    ensures { IsHeld (table_in cores rows.now) result }
{
    let n = rows.c.len();
    let mut core = [0u32; 24];
    let mut response = [0u32; 24];
    let mut allowance = [0u32; 24];
    let mut held = Cores::with_no_rows();
    placing::place_rows(rows, cores, &mut core[..n], &mut held)?;
    figures::write_figures(rows, &held, &mut response[..n], &mut allowance[..n]);
    Ok(Certificate {
        n,
        core,
        response,
        allowance,
    })
}
