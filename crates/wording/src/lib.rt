// The wording of a report: the lines of an answer and of a refusal.
#![tactic(auto)]

ghost use Rattle.std.specs.Prelude.{[], ◌++◌, ◌+◌, ◌*◌, ◌≤◌, ◌<◌, length};
ghost use Rattle.program.specs.Case.{name_size};
ghost use Rattle.program.specs.Cause.{atoms_in};
ghost use Rattle.program.specs.Setting.{digits_of};
ghost use Rattle.text.specs.Bytes.{bytes};
ghost use Rattle.names.specs.Row.{name_in};
ghost use Rattle.output.specs.Decimal.{decimal};
ghost use Rattle.output.specs.Forms.{spaced};
ghost use Rattle.wording.specs.Text.{with_abducible, abducibles, cause_line, cause_lines};
ghost use Rattle.wording.specs.Text.{verdict_line, verdict_lines, cheapest_lines, answer_text, refusal_text};
ghost use Rattle.output.specs.Writing.{Writes, Room};

use output::{put, put_decimal, put_name, put_text};
use program::cause::{Causes, choice};
use words::walk::bits_of;

// The numbers of an answer that its text shows: the rounds and the decided atoms over all settings, the minimal
// explanations, and the lowest cost among them.
#[derive(Clone, Copy)]
pub struct Totals {
    pub rounds: u64,
    pub decided: u64,
    pub minimal: u64,
    pub cost: u64,
}

// Writes the line of the verdict with the number v.
fn verdict_line(out: &mut [u8], at: usize, v: u64) -> usize
    requires { Room (verdict_line v) at }
    ensures { Writes (verdict_line v) out.old at result out.new }
{
    match v {
        0 => put_text(out, at, b"(verdict unexplained)\n"),
        1 => put_text(out, at, b"(verdict follows)\n"),
        2 => put_text(out, at, b"(verdict denied)\n"),
        _ => put_text(out, at, b"(verdict open)\n"),
    }
}

// Writes the lines of the verdicts with the numbers in a list.
fn verdict_lines(out: &mut [u8], at: usize, verdicts: &[u64]) -> usize
    requires { Room (verdict_lines verdicts.now) at }
    ensures { Writes (verdict_lines verdicts.now) out.old at result out.new }
{
    let mut place = at;
    for verdict in verdicts {
        place = verdict_line(out, place, *verdict);
    }
    place
}

// Writes a line with one number behind its opening: a bracket, a word and a space.
fn number_line(out: &mut [u8], at: usize, opening: &[u8], n: u64) -> usize
    requires { Room (opening.now ++ (decimal n ++ bytes ")\n")) at }
    ensures { Writes (opening.now ++ (decimal n ++ bytes ")\n")) out.old at result
        out.new }
{
    let number = put_text(out, at, opening);
    let end = put_decimal(out, number, n);
    put_text(out, end, b")\n")
}

// Writes a line with two numbers behind its opening.
fn pair_line(out: &mut [u8], at: usize, opening: &[u8], x: u64, y: u64) -> usize
    requires { Room (opening.now ++ (decimal x ++ (bytes " " ++ (decimal y ++ bytes ")\n")))) at }
    ensures { Writes (opening.now ++ (decimal x ++ (bytes " " ++ (decimal y ++ bytes ")\n"))))
        out.old at result
        out.new }
{
    let first = put_text(out, at, opening);
    let space = put_decimal(out, first, x);
    let second = put(out, space, b' ');
    let end = put_decimal(out, second, y);
    put_text(out, end, b")\n")
}

// Writes a form with an atom's name behind its opening: a space, a bracket, a word and a space.
fn put_form(out: &mut [u8], at: usize, opening: &[u8], names: &[u8], atom: usize) -> usize
    requires { (16 * atom + 16 ≤ length names.now)
        × Room (opening.now ++ (name_in names.now atom ++ bytes ")")) at }
    ensures { Writes (opening.now ++ (name_in names.now atom ++ bytes ")"))
        out.old at result
        out.new }
{
    let name = put_text(out, at, opening);
    let end = put_name(out, name, names, atom);
    put(out, end, b')')
}

// Writes what a digit adds for an atom: 0 nothing, 1 a fact, 2 an assumption.
fn put_abducible(out: &mut [u8], at: usize, names: &[u8], atom: usize, digit: u64) -> usize
    requires { (16 * atom + 16 ≤ length names.now)
        × Room (spaced (with_abducible digit (name_in names.now atom) [])) at }
    ensures { Writes (spaced (with_abducible digit (name_in names.now atom) [])) out.old at result
        out.new }
{
    match digit {
        0 => at,
        1 => put_form(out, at, b" (true ", names, atom),
        _ => put_form(out, at, b" (false ", names, atom),
    }
}

// Writes what a setting adds, digit by digit, lowest first, a digit for each cause in atom order.
fn put_abducibles(out: &mut [u8], at: usize, names: &[u8], causes: Causes, setting: u64) -> usize
    requires { (name_size ≤ length names.now)
        × Room (spaced (abducibles (name_in names.now) (atoms_in causes.all) (digits_of causes setting))) at }
    ensures { Writes (spaced (abducibles (name_in names.now) (atoms_in causes.all) (digits_of causes
        setting)))
        out.old at result out.new }
{
    let mut place = at;
    let mut rest = setting;
    for atom in bits_of(causes.all) {
        let base = choice(causes.twofold, atom);
        place = put_abducible(out, place, names, atom as usize, rest % base);
        rest /= base;
    }
    place
}

// Writes the line of a setting.
fn cause_line(out: &mut [u8], at: usize, names: &[u8], causes: Causes, setting: u64) -> usize
    requires { (name_size ≤ length names.now) × Room (cause_line (name_in names.now) causes setting) at }
    ensures { Writes (cause_line (name_in names.now) causes setting) out.old at result
        out.new }
{
    let first = put_text(out, at, b"(cause");
    let end = put_abducibles(out, first, names, causes, setting);
    put_text(out, end, b")\n")
}

// Writes the lines of the settings of a list.
fn cause_lines(out: &mut [u8], at: usize, names: &[u8], causes: Causes, list: &[u16]) -> usize
    requires { (name_size ≤ length names.now) × Room (cause_lines (name_in names.now) causes list.now) at }
    ensures { Writes (cause_lines (name_in names.now) causes list.now)
        out.old at result out.new }
{
    let mut place = at;
    for setting in list {
        place = cause_line(out, place, names, causes, *setting as u64);
    }
    place
}

// Writes the line of the lowest cost among some minimal explanations, if there are any.
fn cheapest_lines(out: &mut [u8], at: usize, minimal: u64, cost: u64) -> usize
    requires { Room (cheapest_lines minimal cost) at }
    ensures { Writes (cheapest_lines minimal cost) out.old at result out.new }
{
    if minimal == 0 {
        return at;
    }
    number_line(out, at, b"(cheapest ", cost)
}

// Writes the text of an answer from the output's first byte on: verdicts, rounds, decided atoms, how many minimal
// explanations there are, the settings listed, and the lowest cost. Answers the text's length.
pub fn answer_text(
    out: &mut [u8],
    verdicts: &[u64],
    totals: Totals,
    names: &[u8],
    causes: Causes,
    list: &[u16],
) -> usize
    requires { (name_size ≤ length names.now)
        × Room (answer_text (name_in names.now) causes verdicts.now totals list.now) 0 }
    ensures { Writes (answer_text (name_in names.now) causes verdicts.now totals
        list.now)
        out.old 0 result out.new }
{
    let second = verdict_lines(out, 0, verdicts);
    let third = number_line(out, second, b"(rounds ", totals.rounds);
    let fourth = number_line(out, third, b"(decided ", totals.decided);
    let fifth = pair_line(out, fourth, b"(minimal ", totals.minimal, list.len() as u64);
    let sixth = cause_lines(out, fifth, names, causes, list);
    cheapest_lines(out, sixth, totals.minimal, totals.cost)
}

// Writes the text of a refusal from the output's first byte on. Answers the text's length.
pub fn refusal_text(out: &mut [u8], number: u32, line: u32) -> usize
    ensures { Writes (refusal_text number line) out.old 0 result out.new }
{
    pair_line(out, 0, b"(refused ", number as u64, line as u64)
}
