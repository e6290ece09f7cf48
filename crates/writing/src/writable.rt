// Whether a case can be written: sound, with names that are names and differ, and with prices within the limit.
ghost use Rattle.std.specs.Prelude.{◌≡◌, true, ◌≤◌, ◌<◌, length};
ghost use Rattle.words.specs.Below.{every};
ghost use Rattle.program.specs.Case.{name_size, price_size};
ghost use Rattle.checks.specs.Naming.{is_name};
ghost use Rattle.store.specs.LentTables.{lent_of};
ghost use Rattle.reader.specs.Operation.{tables_fit};
ghost use Rattle.writing.specs.Operation.{is_name_row, is_repeated, is_writable_atom, writable};

use output::name_of;
use program::case::Case;
use store::lent::LentTables;

// Whether bytes are a name.
#[tactic(auto, unfolding(checks::specs::Naming::is_name))]
fn are_name(w: &[u8]) -> bool
    ensures { result ≡ is_name w.now }
{
    text::name::is_name(w) && text::bytes::all_word_bytes(w) && w.len() <= 16
}

// Whether the row of an atom is a name and zeros behind it.
#[tactic(auto, unfolding(crate::specs::Operation::is_name_row))]
fn is_name_row(names: &[u8], atom: usize) -> bool
    requires { (atom < 64) × (name_size ≤ length names.now) }
    ensures { result ≡ is_name_row names.now atom }
{
    let name = name_of(names, atom);
    are_name(name) && names::row_is(names, atom, name)
}

// Whether a row before that of an atom is the same.
fn is_repeated(names: &[u8], atom: usize) -> bool
    requires { (atom < 64) × (name_size ≤ length names.now) }
    ensures { result ≡ is_repeated names.now atom }
{
    let row = atom * 16;
    names::find(names, atom, &names[row..row + 16]).is_some()
}

// Whether an atom has a name of its own and a price of at most 2,000,000.
#[tactic(auto, unfolding(crate::specs::Operation::is_writable_atom))]
fn is_writable_atom(names: &[u8], prices: &[u32], atom: usize) -> bool
    requires { (atom < 64) × (name_size ≤ length names.now) × (price_size ≤ length prices.now) }
    ensures { result ≡ is_writable_atom names.now prices.now atom }
{
    is_name_row(names, atom) && !is_repeated(names, atom) && prices[atom] <= 2000000
}

// Whether each of the first n atoms has a name of its own and a price of at most 2,000,000.
fn atoms_writable(names: &[u8], prices: &[u32], n: usize) -> bool
    requires { (n ≤ 64) × (name_size ≤ length names.now) × (price_size ≤ length prices.now) }
    ensures { result ≡ every n (is_writable_atom names.now prices.now) }
{
    // No `all`: its closure would have to ask again what this function asks.
    for a in 0..n {
        if !is_writable_atom(names, prices, a) {
            return false;
        }
    }
    true
}

// Whether a case can be written, where its lent tables fit.
#[tactic(auto, unfolding(crate::specs::Operation::writable))]
pub fn is_writable(c: Case, t: LentTables) -> bool
    requires { tables_fit (lent_of t) ≡ true }
    ensures { result ≡ writable c (lent_of t.entry) }
{
    program::sound::is_sound(c, t.tables()) && atoms_writable(t.names, t.prices, c.atoms)
}
