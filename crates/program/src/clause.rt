// One clause of a case.
ghost use Rattle.std.specs.Prelude.{◌<◌};

// A clause: its head, its kind as a table's number, and the plain and the negated atoms of its body, bit i for atom i.
// The kind is no enum: the table is lent, by C too, and may have any number there.
#[derive(Clone, Copy)]
pub struct Clause {
    pub head: u32,
    pub kind: u64,
    pub plain: u64,
    pub negated: u64,
    ghost small: { head < 64 },
}
