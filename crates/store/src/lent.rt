// The five lent tables, for operations that only read them.
ghost use Rattle.std.specs.Prelude.{◌≡◌};
ghost use Rattle.store.specs.LentTables.{TablesOf};

use program::tables::Tables;

// The words of the clauses and of the constraints, the nodes of the formulas, the names and the prices.
#[derive(Clone, Copy)]
pub struct LentTables<'a> {
    pub clauses: &'a [u64],
    pub constraints: &'a [u64],
    pub formula: &'a [u8],
    pub names: &'a [u8],
    pub prices: &'a [u32],
}

impl<'a> LentTables<'a> {
    // The tables without names and prices.
    pub fn tables(self) -> Tables<'a>
        ensures { TablesOf self.entry result }
    {
        Tables {
            clauses: self.clauses,
            constraints: self.constraints,
            formula: self.formula,
        }
    }
}
