// The lines of a file.
ghost use Rattle.std.specs.Prelude.{◌<◌, ◌≡◌, length};
ghost use Rattle.text.specs.Lines.{is_comment};
ghost use Rattle.text.specs.Scanning.{LineEnds};

// The end of the line that starts at a place of the file: the place of its LF, or the file's end.
pub fn line_end(file: &[u8], at: usize) -> usize
    requires { at < length file.now }
    ensures { LineEnds file.now at result }
{
    for i in at..file.len() {
        if file[i] == b'\n' {
            return i;
        }
    }
    file.len()
}

// Whether a line is a comment.
#[tactic(auto, unfolding(crate::specs::Lines::is_comment))]
pub fn is_comment(l: &[u8]) -> bool
    ensures { result ≡ is_comment l.now }
{
    l.first() == Some(&b';')
}
