// The program `layers`: reads a case file from standard input and writes the text of its layers, or of a ring, to
// standard output. Where the input cannot be read or the text cannot be written whole, it says so on standard error. It
// takes no argument.
#![tactic(auto)]

ghost use Rattle.input.specs.Answering.{IsAnswered};
ghost use Rattle.layer_report.specs.Report.{LayersOf};
ghost use Rattle.layer_report.proofs.Theorems.{layers_cut};

use input::{Fault, Operation, answer, tell};
use layer_report::operation::layer_report;
use std::io::{self, Read, Write};
use system::{argument_count, write_whole};

// Room for a byte more than a file may have (refusal 2), and for every text (crates/layer_report/specs/Claims.antt).
const FILE_ROOM: usize = 32769;

const TEXT_ROOM: usize = 2954;

struct Layers;

impl Operation for Layers {
    ghost is_text = { LayersOf };

    ghost cut = { layers_cut };

    fn write<W: Write>(&self, input: &[u8], to: &mut W) -> io::Result<()> {
        let mut out = [0; TEXT_ROOM];
        let length = layer_report(input, &mut out).unwrap();
        write_whole(to, &out[..length])
    }
}

// Reads the input, and writes its text.
fn run<R: Read, W: Write>(from: &mut R, to: &mut W) -> Result<(), Fault>
    ensures { IsAnswered LayersOf (R.remaining from.old) result (W.contents to.old) (W.contents to.new) }
{
    let mut file = [0; FILE_ROOM];
    answer(&Layers, from, to, &mut file)
}

fn main(rt: HostRuntime) {
    let mut errors = rt.stderr();
    if argument_count(&rt) > 1 {
        let _ = write_whole(
            &mut errors,
            b"layers: takes no argument, call it so: layers < FILE\n",
        );
        return;
    }
    if let Err(fault) = run(&mut rt.stdin(), &mut rt.stdout()) {
        let _ = tell(&mut errors, "layers", fault);
    }
}
