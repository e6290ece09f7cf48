// The program `compare`, for the tests: its arguments are pairs of a word of at most 32 bytes and an entry of at most
// 16, and it writes for each pair how the word compares with the entry. Where an argument is missing, empty or longer,
// or a line cannot be written, it says so on standard error and ends.
#![tactic(auto)]

ghost use Rattle.std.specs.Prelude.{IfOk};
ghost use Rattle.std.specs.Counts.{IsPrefixLen};
ghost use Rattle.system.specs.Writing.{WritesText};
ghost use Rattle.compare.specs.Program.{outcome_line};

use names::compare::{Compared, compare};
use std::env::Env;
use std::io::{self, Write};
use system::{argument, argument_count, tell_fault, write_whole};

// Why a line has not been written: an argument is missing, empty or longer than its room, or the output failed.
#[derive(Clone, Copy)]
enum Fault {
    Arguments,
    Output(io::Error),
}

// Writes the line of an outcome.
fn write_outcome<W: Write>(to: &mut W, c: Compared) -> io::Result<()>
    ensures { WritesText result (W.contents to.old) (W.contents to.new) (outcome_line c) }
{
    match c {
        Compared::EndsDiffer => write_whole(to, b"ends differ\n"),
        Compared::Another => write_whole(to, b"another\n"),
        Compared::Same => write_whole(to, b"same\n"),
    }
}

// Puts argument i at the start of a buffer, and answers its length.
fn word(arguments: &impl Env, i: usize, buf: &mut [u8]) -> Result<usize, Fault>
    ensures { IfOk result (λ n. IsPrefixLen n buf.new) }
{
    match argument(arguments, i, buf) {
        None | Some(0) => Err(Fault::Arguments),
        Some(n) => Ok(n),
    }
}

// Compares argument i with argument j, an entry in a row between full ones, and writes the outcome.
fn compare_pair<W: Write>(
    arguments: &impl Env,
    i: usize,
    j: usize,
    to: &mut W,
) -> Result<(), Fault> {
    let mut words = [0u8; 32];
    let n = word(arguments, i, &mut words)?;
    let mut entry = [0u8; 16];
    let m = word(arguments, j, &mut entry)?;
    let mut names = [b'a'; 1024];
    table::put_row(&mut names, 16, 16, &entry[..m]);
    let outcome = compare(&names, 1, &words[..n]);
    write_outcome(to, outcome).map_err(Fault::Output)
}

// Compares each pair of arguments.
fn run<W: Write>(arguments: &impl Env, to: &mut W) -> Result<(), Fault> {
    for k in 0..argument_count(arguments) / 2 {
        compare_pair(arguments, 2 * k + 1, 2 * k + 2, to)?;
    }
    Ok(())
}

fn main(rt: HostRuntime) {
    let mut errors = rt.stderr();
    match run(&rt, &mut rt.stdout()) {
        Ok(()) => {}
        Err(Fault::Arguments) => {
            let _ = write_whole(
                &mut errors,
                b"compare: takes pairs of a word of 1 to 32 bytes and an entry of 1 to 16\n",
            );
        }
        Err(Fault::Output(error)) => {
            let _ = tell_fault(&mut errors, "compare: standard output", error);
        }
    }
}
