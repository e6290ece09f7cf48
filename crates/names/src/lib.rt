// Names in a table of rows of 16 bytes.
#![tactic(auto)]

pub mod compare;

ghost use Rattle.std.specs.Prelude.{◌≡◌, ◌≤◌, ◌<◌, length, unwrap_or, IfSome};
ghost use Rattle.program.specs.Case.{name_size};
ghost use Rattle.text.specs.Bytes.{same_bytes};
ghost use Rattle.text.specs.Tokens.{tokens};
ghost use Rattle.text.specs.Words.{names_in};
ghost use Rattle.table.specs.Filled.{padded};
ghost use Rattle.names.specs.Names.{some_long};
ghost use Rattle.names.specs.Row.{row_at, row_of, rows, rows_with, rows_through};

use compare::{Compared, compare};
use text::name::next_name;

// Whether row i is the word w, followed by zeros.
pub fn row_is(names: &[u8], i: usize, w: &[u8]) -> bool
    requires { (i < 64) × (name_size ≤ length names.now) }
    ensures { result ≡ same_bytes (row_at names.now i) (padded 16 w.now) }
{
    let row = i * 16;
    for j in 0..16 {
        if names[row + j] != table::byte_or_zero(w, j) {
            return false;
        }
    }
    true
}

// The first of the count rows that is the word w. Of a longer word a row can be the first 16 bytes, and these are
// compared.
pub fn find(names: &[u8], count: usize, w: &[u8]) -> Option<usize>
    requires { (count ≤ 64) × (name_size ≤ length names.now) }
    ensures first_row { unwrap_or result count ≡ row_of names.now count w.now }
    ensures within { IfSome result (λ i. i < count) }
{
    let held = &w[..w.len().min(16)];
    for i in 0..count {
        if compare(names, i, held) == Compared::Same {
            return Some(i);
        }
    }
    None
}

// Adds the word w to the count names, unless it is one; answers how many there are, or nothing where there is no room.
pub fn intern(names: &mut [u8], count: usize, w: &[u8]) -> Option<usize>
    requires { (count ≤ 64) × (name_size ≤ length names.old) }
    ensures stored { rows (unwrap_or result 65) names.new ≡ rows_with (rows count names.old) w.now }
    ensures few { IfSome result (λ n. n ≤ 64) }
{
    if find(names, count, w).is_some() {
        return Some(count);
    }
    if count == 64 {
        return None;
    }
    table::put_row(names, count * 16, 16, w);
    Some(count + 1)
}

// Adds the names of a line to the count names; answers how many there are, or nothing where there is no room.
pub fn intern_line(l: &[u8], names: &mut [u8], count: usize) -> Option<usize>
    requires { (count ≤ 64) × (name_size ≤ length names.old) }
    ensures stored { rows (unwrap_or result 65) names.new
        ≡ rows_through (rows count names.old) (names_in (tokens l.now)) }
    ensures few { IfSome result (λ n. n ≤ 64) }
{
    let mut at = 0;
    let mut n = count;
    while let Some((a, e)) = next_name(l, at) {
        n = intern(names, n, &l[a..e])?;
        at = e;
    }
    Some(n)
}

// Whether some name of a line is over 16 bytes.
pub fn some_long(l: &[u8]) -> bool
    ensures { result ≡ some_long (names_in (tokens l.now)) }
{
    let mut at = 0;
    // Over where no room is left for such a name; no index is counted.
    while at + 16 < l.len() {
        let Some((a, e)) = next_name(l, at) else {
            return false;
        };
        if e - a > 16 {
            return true;
        }
        at = e;
    }
    false
}
