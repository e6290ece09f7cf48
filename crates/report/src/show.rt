// Showing a text in a lent output, unless the output is too short for it.
ghost use Rattle.std.specs.Prelude.{List, ℕ};
ghost use Rattle.output.specs.Writing.{Writes};
ghost use Rattle.report.specs.Operation.{ReportShown};

use refusals::Refusal;

// What is written as a text.
pub trait Shown {
    // its text
    ghost shown_as: { Self → List ℕ };

    // what is asked of it to be written
    ghost can_write: { Self → Type 0 };

    // Writes the text from the output's first byte on. Answers the text's length.
    fn write(&self, out: &mut [u8]) -> usize
        requires { can_write self.now }
        ensures { Writes (shown_as self.now) out.old 0 result out.new };
}

// Writes a text, unless the output is too short, and answers its length.
pub fn show<T: Shown>(shown: &T, out: &mut [u8]) -> Result<usize, Refusal>
    requires { T.can_write shown.now }
    ensures { ReportShown (T.shown_as shown.now) out.old result out.new }
{
    let length = shown.write(&mut [0; 1]);
    if out.len() < length {
        return Err(Refusal::ShortOutput);
    }
    Ok(shown.write(out))
}
