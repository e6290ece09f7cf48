// The program `tidy`: reads a case file from standard input and writes its case back, as a file again, to standard
// output. Where the input cannot be read or the text cannot be written whole, it says so on standard error. It takes no
// argument.
#![tactic(auto)]

ghost use Rattle.std.proofs.Common.{◌∙◌};
ghost use Rattle.input.specs.Answering.{IsAnswered};
ghost use Rattle.tidying.proofs.Theorems.{tidy_cut};
ghost use Rattle.tidy.specs.Program.{IsTidy};

use input::{Fault, Operation, answer, tell};
use std::io::{self, Read, Write};
use system::{argument_count, write_whole};
use tidying::operation::tidy;

// Room for a byte more than a file may have (refusal 2), and for every text (crates/tidying/specs/Claims.antt).
const FILE_ROOM: usize = 32769;

const TEXT_ROOM: usize = 32768;

struct Tidy;

impl Operation for Tidy {
    ghost is_text = { IsTidy };

    ghost cut = { λ i t k h e. e ∙ tidy_cut i k h };

    fn write<W: Write>(&self, input: &[u8], to: &mut W) -> io::Result<()> {
        let mut out = [0; TEXT_ROOM];
        let length = tidy(input, &mut out).unwrap();
        write_whole(to, &out[..length])
    }
}

// Reads the input, and writes its text.
fn run<R: Read, W: Write>(from: &mut R, to: &mut W) -> Result<(), Fault>
    ensures { IsAnswered IsTidy (R.remaining from.old) result (W.contents to.old) (W.contents to.new) }
{
    let mut file = [0; FILE_ROOM];
    answer(&Tidy, from, to, &mut file)
}

fn main(rt: HostRuntime) {
    let mut errors = rt.stderr();
    if argument_count(&rt) > 1 {
        let _ = write_whole(
            &mut errors,
            b"tidy: takes no argument, call it so: tidy < FILE\n",
        );
        return;
    }
    if let Err(fault) = run(&mut rt.stdin(), &mut rt.stdout()) {
        let _ = tell(&mut errors, "tidy", fault);
    }
}
