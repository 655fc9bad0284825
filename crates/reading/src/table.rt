// A table in memory.
ghost use Rattle.std.specs.Prelude.{◌≤◌};

use rows::HeldRows;

// A table that keeps the rules: its cores, 1 to 8, and its rows.
#[derive(Clone, Copy)]
pub struct Table {
    pub cores: usize,
    pub held: HeldRows,
    ghost some_core: { 1 ≤ cores },
    ghost no_9th_core: { cores ≤ 8 },
}
