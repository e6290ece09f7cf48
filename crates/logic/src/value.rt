// Truth values and the connectives on them.
ghost use Rattle.std.specs.Prelude.{◌≡◌};
ghost use Rattle.logic.specs.Value.{rank, is_true, is_false, negated, lesser, greater, implies, equivalent};

// A truth value, in rising order.
#[derive(Clone, Copy, PartialEq, Eq, PartialOrd, Ord)]
pub enum Value {
    False,
    Unknown,
    True,
}

// "then": rows for the left side false, unknown, true, columns for the right side in the same order.
const THEN: [[Value; 3]; 3] = [
    [Value::True, Value::True, Value::True],
    [Value::Unknown, Value::True, Value::True],
    [Value::False, Value::Unknown, Value::True],
];

impl Value {
    // The place in the order, from 0.
    pub fn rank(self) -> usize
        ensures { result ≡ rank self }
    {
        self as usize
    }

    pub fn is_true(self) -> bool
        ensures { result ≡ is_true self }
    {
        self == Value::True
    }

    pub fn is_false(self) -> bool
        ensures { result ≡ is_false self }
    {
        self == Value::False
    }

    pub fn not(self) -> Value
        ensures { result ≡ negated self }
    {
        match self {
            Value::False => Value::True,
            Value::Unknown => Value::Unknown,
            Value::True => Value::False,
        }
    }

    pub fn and(self, other: Value) -> Value
        ensures { result ≡ lesser self other }
    {
        self.min(other)
    }

    pub fn or(self, other: Value) -> Value
        ensures { result ≡ greater self other }
    {
        self.max(other)
    }

    pub fn then(self, other: Value) -> Value
        ensures { result ≡ implies self other }
    {
        THEN[self.rank()][other.rank()]
    }

    pub fn same(self, other: Value) -> Value
        ensures { result ≡ equivalent self other }
    {
        self.then(other).and(other.then(self))
    }
}
