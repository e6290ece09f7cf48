// The case record, the limits of document 01, and the atoms within them.
ghost use Rattle.std.specs.Prelude.{◌≡◌, ◌+◌, ◌^◌, ◌≤◌};
ghost use Rattle.program.specs.Case.{tables_full};

use crate::tables::Tables;

// A case: how many entries its lent tables have in use, the observed literals, bit i for atom i, how many nodes each
// formula has, and the edition of its causes.
#[derive(Clone, Copy)]
pub struct Case {
    pub atoms: usize,
    pub clauses: usize,
    pub constraints: usize,
    pub formulas: usize,
    pub plain: u64,
    pub negated: u64,
    pub nodes: [usize; 16],
    pub edition: usize,
}

impl Case {
    pub const ATOMS: usize = 64;

    pub const CLAUSES: usize = 256;

    pub const CONSTRAINTS: usize = 32;

    pub const FORMULAS: usize = 16;

    pub const NODES: usize = 128;

    pub const EDITIONS: usize = 2;

    pub const SETTINGS: u64 = 59049;

    // Sizes of the lent tables: words of clauses, words of constraints, bytes of the formulas and of the names,
    // prices.
    pub const CLAUSE_WORDS: usize = 768;

    pub const CONSTRAINT_WORDS: usize = 96;

    pub const FORMULA_BYTES: usize = 2048;

    pub const NAME_BYTES: usize = 1024;

    pub const PRICES: usize = 64;
}

// The atoms below count, bit i of all for atom i.
#[derive(Clone, Copy)]
pub struct Atoms {
    pub count: usize,
    pub all: u64,
    ghost few: { count ≤ 64 },
    ghost each: { all + 1 ≡ 2 ^ count },
}

impl Atoms {
    // The atoms below a number.
    pub fn below(count: usize) -> Atoms
        requires { (1 ≤ count) × (count ≤ 64) }
        ensures { result.count ≡ count }
    {
        Atoms {
            count,
            all: words::lowest(count as u32),
        }
    }
}

// Whether the lent tables have their full sizes.
#[tactic(auto, unfolding(crate::specs::Case::tables_full))]
pub fn tables_full(t: Tables) -> bool
    ensures { result ≡ tables_full t.entry.clauses.now t.entry.constraints.now t.entry.formula.now }
{
    Case::CLAUSE_WORDS <= t.clauses.len()
        && Case::CONSTRAINT_WORDS <= t.constraints.len()
        && Case::FORMULA_BYTES <= t.formula.len()
}
