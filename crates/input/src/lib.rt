// Reading the input, standard input above all, into a lent buffer, and answering it with a text, for the programs.
#![tactic(auto)]

ghost use Rattle.std.specs.Prelude.{◌≡◌, List, ℕ, ◌<◌, ◌++◌, length, take, OnOk};
ghost use Rattle.input.specs.declared.Fault.TheVariants.{Input};
ghost use Rattle.system.specs.Writing.{WritesText, TellsFault};
ghost use Rattle.input.specs.Reading.{InputRead};
ghost use Rattle.input.specs.Answering.{IsAnswered, stream_of};

use std::io::{self, Read, Write};
use system::tell_fault;

// What reading the input gave: how many bytes, and how many of them by the last call of read.
#[derive(Clone, Copy)]
pub struct Input {
    pub count: usize,
    pub last: usize,
}

// Why the input could not be read, and how many bytes of it were read before.
#[derive(Clone, Copy)]
pub struct ReadFault {
    pub count: usize,
    pub error: io::Error,
}

// Why a program has not answered its input: the input could not be read, or the answer not be written whole.
#[derive(Clone, Copy)]
pub enum Fault {
    Input(io::Error),
    Output(io::Error),
}

impl From<ReadFault> for Fault {
    ghost from_gives = { λ f r. r ≡ Input f.error };

    fn from(fault: ReadFault) -> Fault {
        Fault::Input(fault.error)
    }
}

// How a program answers its input.
pub trait Operation {
    // t is a text that answers the bytes i
    ghost is_text: { List ℕ → List ℕ → Type 0 };

    // Writes a text that answers the bytes.
    fn write<W: Write>(&self, input: &[u8], to: &mut W) -> io::Result<()>
        ensures { (t : List ℕ) × is_text input.now t × WritesText result (W.contents to.old) (W.contents to.new) t };

    // an input of more than 32,768 bytes is answered as what it begins with is
    ghost cut: { (i t : List ℕ) (k : ℕ) → 32768 < k → is_text (take k i) t → is_text i t };
}

// Reads the input until the buffer is full, the input ends or a read fails. An interrupted read counts as a failed one.
pub fn read_input<R: Read>(from: &mut R, buf: &mut [u8]) -> Result<Input, ReadFault>
    ensures { InputRead result buf.new (R.remaining from.old) (R.remaining from.new) }
{
    let mut done: usize = 0;
    let mut last: usize = 0;
    while done < buf.len() {
        match from.read(&mut buf[done..]) {
            Ok(0) => return Ok(Input {
                count: done,
                last: 0,
            }),
            Ok(n) => {
                last = n;
                done += n;
            }
            Err(error) => return Err(ReadFault { count: done, error }),
        }
    }
    Ok(Input { count: done, last })
}

// Reads the input into a buffer, and writes a text that answers it.
pub fn answer<P: Operation, R: Read, W: Write>(
    operation: &P,
    from: &mut R,
    to: &mut W,
    buf: &mut [u8],
) -> Result<(), Fault>
    requires { 32768 < length buf.old }
    ensures { IsAnswered P.is_text (R.remaining from.old) result (W.contents to.old) (W.contents to.new) }
{
    let n = read_input(from, buf)?.count;
    operation.write(&buf[..n], to).map_err(Fault::Output)
}

// Writes a line, for standard error: the program, which of its streams failed, and the words of the error.
pub fn tell<W: Write>(to: &mut W, program: &str, fault: Fault) -> io::Result<()>
    ensures { OnOk result (TellsFault (program.now ++ stream_of fault) (W.contents to.old) (W.contents to.new)) }
{
    write!(to, "{program}: ")?;
    match fault {
        Fault::Input(error) => tell_fault(to, "standard input", error),
        Fault::Output(error) => tell_fault(to, "standard output", error),
    }
}
