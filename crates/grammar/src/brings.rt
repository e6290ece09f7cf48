// What a line brings.

// How many clauses, constraints and queries a line brings, the depth of its formula, 0 without one, the number of its
// body's literals, 0 without a body, its price and supplement, 0 without them, and how many edition lines it is.
#[derive(Clone, Copy)]
pub struct Brings {
    pub clauses: usize,
    pub constraints: usize,
    pub queries: usize,
    pub depth: usize,
    pub literals: usize,
    pub price: usize,
    pub supplement: usize,
    pub editions: usize,
}

impl Brings {
    pub const NOTHING: Brings = Brings {
        clauses: 0,
        constraints: 0,
        queries: 0,
        depth: 0,
        literals: 0,
        price: 0,
        supplement: 0,
        editions: 0,
    };
}
