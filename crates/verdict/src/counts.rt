// What the walk counts setting by setting.
ghost use Rattle.std.specs.Prelude.{◌≡◌, map, ◌≤◌, ◌<◌};
ghost use Rattle.table.specs.Filled.{padded};
ghost use Rattle.verdict.specs.Walk.{verdict_number};
ghost use Rattle.verdict.specs.Counting.{no_counts, told_with, verdicts_by};

use crate::verdict::Verdict;
use logic::value::Value;

// How many minimal explanations there are, and which queries are true, and which are false, under each of them, bit q
// for query q.
#[derive(Clone, Copy, Debug, PartialEq, Eq)]
pub struct Counts {
    pub minimal: u64,
    pub follows: u64,
    pub denied: u64,
}

impl Counts {
    // The counts before the first setting, for n queries.
    pub fn none(n: usize) -> Counts
        requires { (1 ≤ n) × (n ≤ 16) }
        ensures { result ≡ no_counts n }
    {
        let all = words::lowest(n as u32);
        Counts {
            minimal: 0,
            follows: all,
            denied: all,
        }
    }

    // The counts with the value v of query q in a minimal explanation: it stays true under each, or false under each,
    // only if it is so in this one.
    pub fn with(self, q: u32, v: Value) -> Counts
        requires { q < 64 }
        ensures { result ≡ told_with self q v }
    {
        let follows = words::without(self.follows, q);
        let denied = words::without(self.denied, q);
        match v {
            Value::True => Counts { denied, ..self },
            Value::False => Counts { follows, ..self },
            Value::Unknown => Counts {
                follows,
                denied,
                ..self
            },
        }
    }

    // The numbers of the verdicts on the first n queries, and zeros behind them.
    pub fn verdicts(self, n: usize) -> [u64; 16]
        requires { n ≤ 16 }
        ensures { result ≡ padded 16 (map verdict_number (verdicts_by self n)) }
    {
        let mut numbers = [0u64; 16];
        for q in 0..n {
            let follows = words::test(self.follows, q as u32);
            let denied = words::test(self.denied, q as u32);
            numbers[q] = u64::from(Verdict::over(self.minimal, follows, denied));
        }
        numbers
    }
}
