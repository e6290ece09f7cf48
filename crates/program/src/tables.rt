// The tables of a case that every operation on it is lent.

// The words of the clauses, the words of the constraints and the nodes of the formulas.
#[derive(Clone, Copy)]
pub struct Tables<'a> {
    pub clauses: &'a [u64],
    pub constraints: &'a [u64],
    pub formula: &'a [u8],
}
