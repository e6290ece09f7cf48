// The causes of a case, its settings, and what a setting adds.
ghost use Rattle.std.specs.Prelude.{◌≡◌, ℕ, ◌+◌, ◌≤◌, ◌<◌, min};
ghost use Rattle.program.specs.Program.{heads_of};
ghost use Rattle.program.specs.Cause.{causes_among, firm_heads, causes_in};
ghost use Rattle.program.specs.Setting.{choice_of, settings_of, additions_of};
ghost use Rattle.program.specs.Digit.{with_digit};

use crate::case::Atoms;
use crate::clauses::Clauses;
use words::walk::bits_of;

// The heads of the clauses, bit i for atom i.
pub fn heads(clauses: Clauses) -> u64
    ensures { result ≡ heads_of clauses.entry.words.now clauses.entry.count }
{
    let mut heads: u64 = 0;
    for k in 0..clauses.count {
        heads |= words::single(clauses.at(k).head);
    }
    heads
}

// The heads of those clauses that are no assumption, bit i for atom i.
// Apart from heads, since one function of both would need a clause on the test that it is passed.
fn firm_heads(clauses: Clauses) -> u64
    ensures { result ≡ firm_heads clauses.entry.words.now clauses.entry.count }
{
    let mut heads: u64 = 0;
    for k in 0..clauses.count {
        let clause = clauses.at(k);
        heads = words::with_bit(heads, clause.kind != 1, clause.head);
    }
    heads
}

// Those of the atoms that are no head.
fn unheaded(atoms: Atoms, heads: u64) -> u64
    ensures { result ≡ causes_among atoms.count heads }
{
    atoms.all & !heads
}

// The causes, and those of them that have two choices, bit i for atom i.
#[derive(Clone, Copy)]
pub struct Causes {
    pub all: u64,
    pub twofold: u64,
}

// The causes in an edition among a number of atoms, where heads has the heads of the clauses.
pub fn causes_in(edition: usize, atoms: usize, clauses: Clauses, heads: u64) -> Causes
    requires { (1 ≤ atoms) × (atoms ≤ 64) × (heads ≡ heads_of clauses.words.now clauses.count) }
    ensures { result ≡ causes_in edition atoms clauses.entry.words.now clauses.entry.count }
{
    let free = unheaded(Atoms::below(atoms), heads);
    if edition != 2 {
        return Causes {
            all: free,
            twofold: 0,
        };
    }
    let assumed = heads & !firm_heads(clauses);
    Causes {
        all: free | assumed,
        twofold: assumed,
    }
}

// The number of choices that a cause has.
pub fn choice(twofold: u64, atom: u32) -> u64
    requires { atom < 64 }
    ensures { result ≡ choice_of twofold atom }
{
    if words::test(twofold, atom) { 2 } else { 3 }
}

// The number of settings, or 59,050 where there are more than 59,049.
pub fn settings(causes: Causes) -> u64
    ensures { result ≡ min (settings_of causes) 59050 }
{
    let mut product: u64 = 1;
    for atom in bits_of(causes.all) {
        product *= choice(causes.twofold, atom);
        if 59049 < product {
            return 59050;
        }
    }
    product
}

// What a set of causes adds to a program: atoms that get a fact, and atoms that get an assumption, bit i for atom i.
#[derive(Clone, Copy)]
pub struct Additions {
    pub facts: u64,
    pub assumptions: u64,
}

impl Additions {
    // With an atom added as a digit says: 0 adds nothing, 1 a fact, 2 an assumption.
    pub fn with(self, atom: u32, digit: u64) -> Additions
        requires { atom < 64 }
        ensures { result ≡ with_digit self atom digit }
    {
        match digit {
            1 => Additions {
                facts: self.facts | words::single(atom),
                ..self
            },
            2 => Additions {
                assumptions: self.assumptions | words::single(atom),
                ..self
            },
            _ => self,
        }
    }

    // What the next setting adds: the lowest digit that isn't its cause's highest rises by one, and those below it fall
    // to 0.
    pub fn next(self, causes: Causes) -> Additions
        ensures { (s : ℕ) → self ≡ additions_of causes s → result ≡ additions_of causes (s + 1) }
    {
        let mut x = self;
        for atom in bits_of(causes.all) {
            if words::test(x.facts, atom) {
                x.facts = words::without(x.facts, atom);
                if !words::test(causes.twofold, atom) {
                    x.assumptions |= words::single(atom);
                    return x;
                }
            } else if words::test(x.assumptions, atom) {
                x.assumptions = words::without(x.assumptions, atom);
            } else {
                x.facts |= words::single(atom);
                return x;
            }
        }
        x
    }
}

// What a setting adds: digit by digit, lowest first, a digit for each cause in atom order.
pub fn added(causes: Causes, setting: u64) -> Additions
    ensures { result ≡ additions_of causes setting }
{
    let mut sum = Additions {
        facts: 0,
        assumptions: 0,
    };
    let mut rest = setting;
    for atom in bits_of(causes.all) {
        let base = choice(causes.twofold, atom);
        sum = sum.with(atom, rest % base);
        rest /= base;
    }
    sum
}
