// From a table in memory to its certificate: what the services on bytes and on text have in common. It knows neither.
#![tactic(auto)]

ghost use Rattle.reading.specs.Read.{held_table};
ghost use Rattle.certificates.specs.Held.{IsHeld};

use answers::Refusal;
use certificates::Certificate;
use reading::Table;

// The certificate of a table.
pub fn certificate_of(table: &Table) -> Result<Certificate, Refusal>
    ensures { IsHeld (held_table table.now) result }
{
    certificates::certify(table.cores, &table.held.rows())
}
