// The clauses of a case.
ghost use Rattle.std.specs.Prelude.{◌*◌, ◌≤◌, ◌<◌, length};
ghost use Rattle.program.specs.Clauses.{ClauseAt};

use crate::clause::Clause;

// The first count clauses of a lent table, three words each.
#[derive(Clone, Copy)]
pub struct Clauses<'a> {
    pub words: &'a [u64],
    pub count: usize,
    ghost few: { count ≤ 256 },
    ghost held: { 3 * count ≤ length words.now },
}

impl<'a> Clauses<'a> {
    // Clause k.
    pub fn at(self, k: usize) -> Clause
        requires { k < self.count }
        ensures { ClauseAt self.entry.words.now k result }
    {
        let at = 3 * k;
        let first = self.words[at];
        Clause {
            head: (first % 64) as u32,
            kind: first / 64,
            plain: self.words[at + 1],
            negated: self.words[at + 2],
        }
    }
}
