// The rules of each head as a chain from the last to the first.
ghost use Rattle.std.specs.Prelude.{◌≡◌, leb};
ghost use Rattle.words.specs.Choice.{pick};
ghost use Rattle.prepared.specs.Chains.{Lasts, Linked};

use program::clauses::Clauses;

// For each head one more than the number of its last rule, or 0, and for each clause the same for the last rule before
// it with its head. No option in place of the 0: `Lasts` and `Linked` speak of these numbers.
#[derive(Clone, Copy)]
pub struct Chains {
    pub last: [usize; 64],
    pub prev: [usize; 256],
}

// The number k where a clause's kind is a rule's, otherwise the number before.
fn newest(kind: u64, k: usize, before: usize) -> usize
    ensures { result ≡ pick (leb 2 kind) k before }
{
    if kind < 2 { before } else { k }
}

// The chains of some clauses.
pub fn fill(clauses: Clauses) -> Chains
    ensures { Lasts clauses.entry.words.now clauses.entry.count result.last
        × Linked clauses.entry.words.now clauses.entry.count result.prev }
{
    let mut last = [0; 64];
    let mut prev = [0; 256];
    for k in 0..clauses.count {
        let clause = clauses.at(k);
        let head = clause.head as usize;
        let before = last[head];
        prev[k] = before;
        last[head] = newest(clause.kind, k + 1, before);
    }
    Chains { last, prev }
}
