// The atoms of names.
ghost use Rattle.std.specs.Prelude.{◌≡◌, ◌≤◌, length};
ghost use Rattle.program.specs.Case.{name_size};
ghost use Rattle.names.specs.Row.{row_of};

// The atom of a name by a table of count names, count where it has none, as the promises of storing have it.
pub fn atom_of(names: &[u8], count: usize, name: &[u8]) -> usize
    requires { (count ≤ 64) × (name_size ≤ length names.now) }
    ensures { result ≡ row_of names.now count name.now }
{
    names::find(names, count, name).unwrap_or(count)
}
