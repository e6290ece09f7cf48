// Writing bytes, texts, numbers in decimal and names to a lent output, from a place on. Bytes behind the output's end
// are counted and not written.
#![tactic(auto)]

ghost use Rattle.std.specs.Prelude.{◌≡◌, [], ◌∷◌, ◌+◌, ◌*◌, ◌≤◌, ◌<◌, length};
ghost use Rattle.names.specs.Row.{name_in};
ghost use Rattle.output.specs.Decimal.{decimal};
ghost use Rattle.output.specs.Writing.{Writes, Room};

// Writes one byte at a place, and answers the place behind it.
pub fn put(out: &mut [u8], at: usize, b: u8) -> usize
    requires { Room (b ∷ []) at }
    ensures { Writes (b ∷ []) out.old at result out.new }
{
    if at < out.len() {
        out[at] = b;
    }
    at + 1
}

// Writes a text.
pub fn put_text(out: &mut [u8], at: usize, text: &[u8]) -> usize
    requires { Room text.now at }
    ensures { Writes text.now out.old at result out.new }
{
    let mut place = at;
    for b in text {
        place = put(out, place, *b);
    }
    place
}

// Writes a number in decimal.
pub fn put_decimal(out: &mut [u8], at: usize, n: u64) -> usize
    requires { Room (decimal n) at }
    ensures { Writes (decimal n) out.old at result out.new }
{
    let digit = b'0' + (n % 10) as u8;
    if n < 10 {
        return put(out, at, digit);
    }
    let next = put_decimal(out, at, n / 10);
    put(out, next, digit)
}

// The name of an atom.
pub fn name_of(names: &[u8], atom: usize) -> &[u8]
    requires { 16 * atom + 16 ≤ length names.now }
    ensures { result.now ≡ name_in names.now atom }
{
    let row = &names[16 * atom..16 * atom + 16];
    for (i, b) in row.iter().enumerate() {
        if *b == 0 {
            return &row[..i];
        }
    }
    row
}

// Writes the name of an atom.
pub fn put_name(out: &mut [u8], at: usize, names: &[u8], atom: usize) -> usize
    requires { (16 * atom + 16 ≤ length names.now) × Room (name_in names.now atom) at }
    ensures { Writes (name_in names.now atom) out.old at result out.new }
{
    put_text(out, at, name_of(names, atom))
}
