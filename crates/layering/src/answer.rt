// What the operation *layers* answers.
ghost use Rattle.std.specs.Prelude.{◌≡◌, ◌≤◌, length};
ghost use Rattle.layering.specs.Operation.{entries_of};

// A number of entries, and behind them zeros, as memory is fixed.
#[derive(Clone, Copy)]
pub struct Entries {
    pub count: usize,
    pub entries: [u64; 64],
}

impl Entries {
    // The entries of a list.
    pub fn of(list: &[u64]) -> Entries
        requires { length list.now ≤ 64 }
        ensures { result ≡ entries_of (length list.now) list.now }
    {
        let mut entries = [0; 64];
        entries[..list.len()].copy_from_slice(list);
        Entries {
            count: list.len(),
            entries,
        }
    }
}

// The least number of each atom of a layered case, or the atoms of a ring.
#[derive(Clone, Copy)]
pub enum Layers {
    Layered(Entries),
    Ring(Entries),
}
