// The program `causes`: reads a case file from standard input and writes its report to standard output. Where the input
// cannot be read or the report cannot be written whole, it says so on standard error. It takes no argument.
#![tactic(auto)]

ghost use Rattle.std.proofs.Common.{◌∙◌};
ghost use Rattle.system.specs.Writing.{WritesText};
ghost use Rattle.input.specs.Answering.{IsAnswered};
ghost use Rattle.report.specs.Report.{report_text};
ghost use Rattle.report.proofs.Theorems.{report_cut};
ghost use Rattle.causes.specs.Program.{IsReport};

use input::{Fault, Operation, answer, tell};
use report::operation::report;
use std::io::{self, Read, Write};
use system::{argument_count, write_whole};

// Room for a byte more than a file may have (refusal 2), for the report of ten causes and less, and for every report
// (crates/report/specs/Claims.antt).
const FILE_ROOM: usize = 32769;

const USUAL_ROOM: usize = 264640;

const REPORT_ROOM: usize = 392640;

struct Causes;

impl Operation for Causes {
    ghost is_text = { IsReport };

    ghost cut = { λ i t k h e. e ∙ report_cut i k h };

    fn write<W: Write>(&self, input: &[u8], to: &mut W) -> io::Result<()> {
        let mut out = [0; USUAL_ROOM];
        match report(input, &mut out) {
            Ok(length) => write_whole(to, &out[..length]),
            Err(_) => write_long(input, to),
        }
    }
}

// Writes the report of a file, whatever its length.
fn write_long<W: Write>(file: &[u8], to: &mut W) -> io::Result<()>
    ensures { WritesText result (W.contents to.old) (W.contents to.new) (report_text file.now) }
{
    let mut out = [0; REPORT_ROOM];
    let length = report(file, &mut out).unwrap();
    write_whole(to, &out[..length])
}

// Reads the input, and writes its report.
fn run<R: Read, W: Write>(from: &mut R, to: &mut W) -> Result<(), Fault>
    ensures { IsAnswered IsReport (R.remaining from.old) result (W.contents to.old) (W.contents to.new) }
{
    let mut file = [0; FILE_ROOM];
    answer(&Causes, from, to, &mut file)
}

fn main(rt: HostRuntime) {
    let mut errors = rt.stderr();
    if argument_count(&rt) > 1 {
        let _ = write_whole(
            &mut errors,
            b"causes: takes no argument, call it so: causes < FILE\n",
        );
        return;
    }
    if let Err(fault) = run(&mut rt.stdin(), &mut rt.stdout()) {
        let _ = tell(&mut errors, "causes", fault);
    }
}
