// What the programs ask of the system besides their input: their arguments, and writing.
#![tactic(auto)]

ghost use Rattle.std.specs.Prelude.{IfSome, OnOk};
ghost use Rattle.std.specs.Counts.{IsPrefixLen};
ghost use Rattle.system.specs.Writing.{WritesText, TellsFault};

use std::env::{Env, FillError};
use std::io::{self, Cursor, Write};

// How many arguments the program was started with, its own name among them.
pub fn argument_count(env: &impl Env) -> usize {
    for i in 0..usize::MAX {
        if let Err(FillError::NotPresent) = env.arg(i, &mut []) {
            return i;
        }
    }
    usize::MAX
}

// Puts argument i at the start of a buffer and answers its length, none where it is missing or longer than the buffer.
pub fn argument(env: &impl Env, i: usize, buf: &mut [u8]) -> Option<usize>
    ensures { IfSome result (λ n. IsPrefixLen n buf.new) }
{
    env.arg(i, buf).ok()
}

// Writes all of a text, or stops at the first call of write that fails or takes nothing. An interrupted one counts as
// failed.
pub fn write_whole<W: Write>(to: &mut W, text: &[u8]) -> io::Result<()>
    ensures { WritesText result (W.contents to.old) (W.contents to.new) text.now }
{
    let mut done: usize = 0;
    // A write takes any number of bytes, so this counts no index.
    while done < text.len() {
        let n = to.write(&text[done..])?;
        if n == 0 {
            return Err(io::Error::from(io::ErrorKind::WriteZero));
        }
        done += n;
    }
    Ok(())
}

// Writes a line, for standard error: what failed, a colon and the words of its error.
pub fn tell_fault<W: Write>(to: &mut W, what: &str, error: io::Error) -> io::Result<()>
    ensures { OnOk result (TellsFault what.now (W.contents to.old) (W.contents to.new)) }
{
    let mut text = Cursor::new([0u8; ERROR_ROOM]);
    let _ = write!(text, "{error}");
    let length = text.position().min(ERROR_ROOM as u64) as usize;
    let words = words_of(&text.get_ref()[..length]);
    writeln!(to, "{what}: {words}")
}

// Room for the text of an error.
const ERROR_ROOM: usize = 128;

// The words of an error's text, without the number that stands behind those of the system's errors.
fn words_of(text: &[u8]) -> &str {
    let Ok(text) = str::from_utf8(text) else {
        return "";
    };
    match text.split_once(" (os error ") {
        Some((words, _)) => words,
        None => text,
    }
}
