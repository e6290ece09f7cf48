// The text of layers, and of a ring.
ghost use Rattle.std.specs.Prelude.{map, ◌≤◌, ◌<◌, length};
ghost use Rattle.program.specs.Case.{name_size};
ghost use Rattle.names.specs.Row.{name_in};
ghost use Rattle.output.specs.Forms.{spaced};
ghost use Rattle.output.specs.Writing.{Writes, Room};
ghost use Rattle.layer_report.specs.Text.{layer_line, layer_lines, numbers_text, ring_text};
ghost use Rattle.layer_report.specs.Entries.{Atoms};

use output::{put, put_decimal, put_name, put_text};

// Writes the line of an atom: its name and its number.
fn layer_line(out: &mut [u8], at: usize, names: &[u8], numbers: &[u64], atom: usize) -> usize
    requires { (atom < 64) × (atom < length numbers.now) × (name_size ≤ length names.now)
        × Room (layer_line (name_in names.now) numbers.now atom) at }
    ensures { Writes (layer_line (name_in names.now) numbers.now atom)
        out.old at result out.new }
{
    let name = put_text(out, at, b"(layer ");
    let space = put_name(out, name, names, atom);
    let number = put(out, space, b' ');
    let end = put_decimal(out, number, numbers[atom]);
    put_text(out, end, b")\n")
}

// Writes the lines of the atoms with the numbers in a list, in atom order.
fn layer_lines(out: &mut [u8], at: usize, names: &[u8], numbers: &[u64]) -> usize
    requires { (length numbers.now ≤ 64) × (name_size ≤ length names.now)
        × Room (layer_lines (name_in names.now) numbers.now) at }
    ensures { Writes (layer_lines (name_in names.now) numbers.now) out.old at result
        out.new }
{
    let mut place = at;
    for atom in 0..numbers.len() {
        place = layer_line(out, place, names, numbers, atom);
    }
    place
}

// Writes the text of a layered case from the output's first byte on. Answers the text's length.
pub fn numbers_text(out: &mut [u8], names: &[u8], numbers: &[u64]) -> usize
    requires { (length numbers.now ≤ 64) × (name_size ≤ length names.now)
        × Room (numbers_text (name_in names.now) numbers.now) 0 }
    ensures { Writes (numbers_text (name_in names.now) numbers.now) out.old 0 result
        out.new }
{
    let lines = put_text(out, 0, b"(layered)\n");
    layer_lines(out, lines, names, numbers)
}

// Writes the names of the atoms in a list, one space before each.
fn put_names(out: &mut [u8], at: usize, names: &[u8], atoms: &[u64]) -> usize
    requires { Atoms atoms.now × (name_size ≤ length names.now)
        × Room (spaced (map (name_in names.now) atoms.now)) at }
    ensures { Writes (spaced (map (name_in names.now) atoms.now)) out.old at result
        out.new }
{
    let mut place = at;
    for atom in atoms {
        let name = put(out, place, b' ');
        place = put_name(out, name, names, *atom as usize);
    }
    place
}

// Writes the line of a ring from the output's first byte on. Answers the text's length.
pub fn ring_text(out: &mut [u8], names: &[u8], atoms: &[u64]) -> usize
    requires { Atoms atoms.now × (name_size ≤ length names.now)
        × Room (ring_text (name_in names.now) atoms.now) 0 }
    ensures { Writes (ring_text (name_in names.now) atoms.now) out.old 0 result
        out.new }
{
    let first = put_text(out, 0, b"(ring");
    let end = put_names(out, first, names, atoms);
    put_text(out, end, b")\n")
}
