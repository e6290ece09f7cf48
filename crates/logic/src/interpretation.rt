// Interpretations: which atoms are true and which are false.
ghost use Rattle.std.specs.Prelude.{◌≡◌, ◌+◌, ◌<◌};
ghost use Rattle.logic.specs.Value.{is_true, greater};
ghost use Rattle.logic.specs.Formula.{value_of, literal, body};
ghost use Rattle.logic.specs.Interpretation.{nothing, value_at, of_values, decided_in, newly_decided};
ghost use Rattle.logic.specs.Interpretation.{Disjoint};
ghost use Rattle.logic.specs.Assigned.{assigned};

use crate::value::Value;

// Bit i of trues: atom i is true; bit i of falses: it is false. Never both.
// No ghost field says so: any two words make an interpretation, and its methods ask for it where they need it.
#[derive(Clone, Copy)]
pub struct Interpretation {
    pub trues: u64,
    pub falses: u64,
}

impl Interpretation {
    // The interpretation in which nothing is decided.
    pub fn nothing() -> Interpretation
        ensures { result ≡ nothing }
    {
        Interpretation {
            trues: 0,
            falses: 0,
        }
    }

    // The value of an atom.
    pub fn value(self, atom: u32) -> Value
        requires { atom < 64 }
        ensures { result ≡ value_at self atom }
    {
        if words::test(self.trues, atom) {
            Value::True
        } else if words::test(self.falses, atom) {
            Value::False
        } else {
            Value::Unknown
        }
    }

    // Whether a literal, an atom or its negation, is true.
    pub fn holds(self, atom: u32, negated: bool) -> bool
        requires { (atom < 64) × Disjoint self }
        ensures { result ≡ is_true (value_of (value_at self) (literal negated atom)) }
    {
        if negated {
            words::test(self.falses, atom)
        } else {
            words::test(self.trues, atom)
        }
    }

    // The value of a body by the masks of its plain and its negated atoms.
    pub fn body(self, plain: u64, negated: u64) -> Value
        requires { Disjoint self }
        ensures { result ≡ value_of (value_at self) (body plain negated) }
    {
        let against = (plain & self.falses) | (negated & self.trues);
        let missing = (plain & !self.trues) | (negated & !self.falses);
        if against != 0 {
            Value::False
        } else if missing == 0 {
            Value::True
        } else {
            Value::Unknown
        }
    }

    // The interpretation in which an atom has the value v, and every other the value it had.
    pub fn decide(self, atom: u32, v: Value) -> Interpretation
        requires { (atom < 64) × Disjoint self }
        ensures { result ≡ of_values (assigned (value_at self) atom v) }
    {
        Interpretation {
            trues: words::with_bit(words::without(self.trues, atom), v.is_true(), atom),
            falses: words::with_bit(words::without(self.falses, atom), v.is_false(), atom),
        }
    }

    // The interpretation in which an atom has at least the value v.
    pub fn raise(self, atom: u32, v: Value) -> Interpretation
        requires { (atom < 64) × Disjoint self }
        ensures { result ≡ of_values (assigned (value_at self) atom (greater (value_at self atom) v)) }
    {
        match v {
            Value::True => self.decide(atom, Value::True),
            Value::Unknown => {
                if self.holds(atom, false) {
                    self
                } else {
                    self.decide(atom, Value::Unknown)
                }
            }
            Value::False => self,
        }
    }

    // The number of decided atoms.
    pub fn decided(self) -> u32
        ensures { result ≡ decided_in self }
    {
        words::count(self.trues) + words::count(self.falses)
    }

    // How many of the decided atoms were undecided in the interpretation before.
    pub fn newly_decided(self, before: Interpretation) -> u32
        requires { Disjoint self }
        ensures { result ≡ newly_decided before self }
    {
        let open = !(before.trues | before.falses);
        let newly = Interpretation {
            trues: self.trues & open,
            falses: self.falses & open,
        };
        newly.decided()
    }
}
