// The planes of truth values, and the value of a body and of a head's rules in each lane.
ghost use Rattle.std.specs.Prelude.{◌≡◌, ◌*◌};
ghost use Rattle.logic.specs.Formula.{value_of};
ghost use Rattle.logic.specs.Formula.{body as Formula·body};
ghost use Rattle.logic.specs.Interpretation.{value_at};
ghost use Rattle.prepared.specs.Chains.{last_of, rules_value, Linked};
ghost use Rattle.planes.specs.Planes.{column, Planes, Joined, Worth};

use program::clauses::Clauses;
use words::walk::bits_of;

// For each atom the lanes in which it is true, and those in which it is false.
#[derive(Clone, Copy)]
pub struct TruthPlanes {
    pub trues: [u64; 64],
    pub falses: [u64; 64],
}

// A value in each lane: bit j of the two words says whether it is true, and whether it is false, in lane j.
#[derive(Clone, Copy)]
pub struct Lanes {
    pub trues: u64,
    pub falses: u64,
}

// The atoms of w joined to b by "and": true where all are, false where one is.
fn join(b: Lanes, w: u64, t: &[u64; 64], f: &[u64; 64]) -> Lanes
    ensures { Joined t.now f.now w b result }
{
    let mut up = b.trues;
    let mut down = b.falses;
    for i in bits_of(w) {
        up &= t[i as usize];
        down |= f[i as usize];
    }
    Lanes {
        trues: up,
        falses: down,
    }
}

// The value of a body in each lane, by the masks of its plain and its negated atoms.
pub fn body(plain: u64, negated: u64, p: &TruthPlanes) -> Lanes
    requires { Planes p.now.trues p.now.falses }
    ensures { Worth result (λ j. value_of (value_at (column p.now.trues p.now.falses j))
        (Formula·body plain negated)) }
{
    let all = Lanes {
        trues: !0u64,
        falses: 0,
    };
    let plains = join(all, plain, &p.trues, &p.falses);
    join(plains, negated, &p.falses, &p.trues)
}

// What the rules of a head are worth in each lane; from is one more than the number of its last rule, or 0.
pub fn rules(
    clauses: Clauses,
    prev: &[usize; 256],
    head: u32,
    from: usize,
    p: &TruthPlanes,
) -> Lanes
    requires { (from ≡ last_of clauses.words.now head clauses.count)
        × Linked clauses.words.now clauses.count prev.now × Planes p.now.trues p.now.falses }
    ensures { Worth result (λ j. rules_value (value_at (column p.now.trues p.now.falses j))
        clauses.entry.words.now head clauses.entry.count) }
{
    let mut up: u64 = 0;
    let mut down: u64 = !0u64;
    let mut k = from;
    // A chain is followed; no index is counted.
    while k != 0 {
        let rule = k - 1;
        let clause = clauses.at(rule);
        let v = body(clause.plain, clause.negated, p);
        up |= v.trues;
        down &= v.falses;
        k = prev[rule];
    }
    Lanes {
        trues: up,
        falses: down,
    }
}
