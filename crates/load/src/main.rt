// The program `load`: writes to standard output the case file that follows from its three arguments, a seed, a number
// of atoms and a number of clauses, each of one to 19 digits. Where an argument is no such number or the seed is over
// 4,294,967,295, or where the text cannot be written whole, it says so on standard error.
#![tactic(auto)]

ghost use Rattle.system.specs.Writing.{WritesText};
ghost use Rattle.load.specs.Program.{load_answer, Answered};

use loading::operation::generate;
use report::operation::show_refusal;
use std::env::Env;
use std::io::{self, Write};
use system::{argument, argument_count, tell_fault, write_whole};
use text::number::digits_at;

// Room for every text (crates/loading/specs/Claims.antt), and for the digits of an argument.
const TEXT_ROOM: usize = 9931;

const DIGITS: usize = 19;

// A seed, and how many atoms and clauses follow from it.
#[derive(Clone, Copy)]
struct Load {
    seed: u32,
    atoms: u64,
    clauses: u64,
}

// Puts the text of a load, or of its refusal, in front of an output with room for every text, and answers its length.
fn answer(l: Load, out: &mut [u8; TEXT_ROOM]) -> usize
    ensures { Answered l.seed l.atoms l.clauses result out.new }
{
    match generate(l.seed, l.atoms, l.clauses, out) {
        Ok(length) => length,
        Err(refusal) => show_refusal(u32::from(refusal), 0, out).unwrap(),
    }
}

// Makes the text of a load, and writes it.
fn run<W: Write>(to: &mut W, l: Load) -> io::Result<()>
    ensures { WritesText result (W.contents to.old) (W.contents to.new) (load_answer l.seed l.atoms l.clauses) }
{
    let mut out = [0; TEXT_ROOM];
    let length = answer(l, &mut out);
    write_whole(to, &out[..length])
}

// The number that argument i is, none where it is missing, longer than its room or no number.
fn number(arguments: &impl Env, i: usize) -> Option<usize> {
    let mut digits = [0; DIGITS];
    let n = argument(arguments, i, &mut digits)?;
    digits_at(&digits[..n])
}

// The load that the arguments name.
fn named(arguments: &impl Env) -> Option<Load> {
    if argument_count(arguments) != 4 {
        return None;
    }
    let seed = u32::try_from(number(arguments, 1)?).ok()?;
    let atoms = number(arguments, 2)? as u64;
    let clauses = number(arguments, 3)? as u64;
    Some(Load {
        seed,
        atoms,
        clauses,
    })
}

fn main(rt: HostRuntime) {
    let mut errors = rt.stderr();
    let Some(load) = named(&rt) else {
        let _ = write_whole(
            &mut errors,
            b"load: takes a seed of at most 4294967295 and two numbers, call it so: load SEED ATOMS CLAUSES\n",
        );
        return;
    };
    if let Err(error) = run(&mut rt.stdout(), load) {
        let _ = tell_fault(&mut errors, "load: standard output", error);
    }
}
