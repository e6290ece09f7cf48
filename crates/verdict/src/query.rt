// The queries.
ghost use Rattle.std.specs.Prelude.{◌≡◌, true, ℕ, ◌≤◌, ◌<◌, length, get_or};
ghost use Rattle.logic.specs.Nodes.{one_formula};
ghost use Rattle.program.specs.Case.{formula_size, part_size, nodes_of};
ghost use Rattle.planes.specs.Planes.{column};
ghost use Rattle.verdict.specs.Counting.{counts_with};
ghost use Rattle.verdict.specs.Lane.{Askable, query_under};

use crate::counts::Counts;
use logic::interpretation::Interpretation;
use logic::value::Value;
use planes::lane::lane;
use planes::plane::TruthPlanes;
use program::case::Case;
use words::walk::bits_of;

// The queries of a case: the node count of each, and the table of their nodes.
#[derive(Clone, Copy)]
pub struct Queries<'a> {
    pub nodes: &'a [usize; 16],
    pub formula: &'a [u8],
    ghost long: { formula_size ≤ length formula.now },
}

impl Queries<'_> {
    // The value of query q under an interpretation.
    pub fn value(self, q: usize, i: Interpretation) -> Value
        requires { (q < 16) × (get_or self.nodes.now q 0 ≤ part_size) }
        ensures { (n : ℕ) → one_formula n (nodes_of self.entry.nodes.now self.entry.formula.now q) ≡ true
            → result ≡ query_under i self.entry.nodes.now self.entry.formula.now q }
    {
        let at = Case::NODES * q;
        let end = at + self.nodes[q];
        nodes::formula::formula_value(&self.formula[at..end], i)
    }
}

// The counts with one minimal explanation more, that of lane j. A query that is open already is not evaluated.
pub fn hold(queries: Queries, planes: &TruthPlanes, j: u32, counts: Counts) -> Counts
    requires { (j < 64) × (counts.minimal < 59049) × Askable queries.nodes.now queries.formula.now counts }
    ensures { result ≡ counts_with counts (query_under (column planes.now.trues planes.now.falses j)
        queries.entry.nodes.now queries.entry.formula.now) }
{
    let mut told = Counts {
        minimal: counts.minimal + 1,
        ..counts
    };
    let asked = counts.follows | counts.denied;
    if asked == 0 {
        return told;
    }
    let i = lane(planes, j);
    for q in bits_of(asked) {
        told = told.with(q, queries.value(q as usize, i));
    }
    told
}
