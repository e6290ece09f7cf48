// Which of 64 settings explain the readings.
ghost use Rattle.std.specs.Prelude.{◌≡◌, not, ◌&&◌, ℕ, ◌*◌, ◌≤◌, ◌<◌, length};
ghost use Rattle.words.specs.Bits.{has};
ghost use Rattle.logic.specs.declared.value.Value.{Value};
ghost use Rattle.logic.specs.Interpretation.{value_at};
ghost use Rattle.program.specs.Case.{constraint_size};
ghost use Rattle.planes.specs.Planes.{column, Planes, Worth};
ghost use Rattle.explanation.specs.Explanation.{met, all_met, explains_under};

use planes::plane::{Lanes, TruthPlanes, body};
use program::case::Case;

// The lanes of w that are none of v.
fn lacking(w: u64, v: u64) -> u64
    ensures { (j : ℕ) → j < 64 → has result j ≡ (has w j && not (has v j)) }
{
    w & !v
}

// The lanes of w in which a constraint of a kind is met, where b says what its body is worth.
// The kind is a word of a table that C lends, so it is any number.
fn met(w: u64, kind: u64, b: Lanes) -> u64
    ensures { (v : ℕ → Value) → Worth b v → (j : ℕ) → j < 64 → has result j ≡ (has w j && met kind (v j)) }
{
    if kind == 0 {
        return w & b.falses;
    }
    lacking(w, b.trues)
}

// The lanes of w in which each of the first n constraints is met.
fn all_met(w: u64, constraints: &[u64], n: usize, p: &TruthPlanes) -> u64
    requires { Planes p.now.trues p.now.falses × (n ≤ 32) × (3 * n ≤ length constraints.now) }
    ensures { (j : ℕ) → j < 64 → has result j ≡ (has w j
        && all_met constraints.now n (value_at (column p.now.trues p.now.falses j))) }
{
    let mut ok = w;
    for k in 0..n {
        let at = 3 * k;
        let b = body(constraints[at], constraints[at + 1], p);
        ok = met(ok, constraints[at + 2], b);
    }
    ok
}

// The lanes in which every observation is true and every constraint is met.
pub fn explaining(c: Case, constraints: &[u64], p: &TruthPlanes) -> u64
    requires { Planes p.now.trues p.now.falses × (c.constraints ≤ 32) × (constraint_size ≤ length constraints.now) }
    ensures { (j : ℕ) → j < 64 → has result j
        ≡ explains_under c constraints.now (value_at (column p.now.trues p.now.falses j)) }
{
    let seen = body(c.plain, c.negated, p);
    all_met(seen.trues, constraints, c.constraints, p)
}
