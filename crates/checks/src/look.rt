// Looking at a line: the checks 3 to 5, which need nothing of what was read.
ghost use Rattle.checks.specs.Looked.{LookedAs};

use grammar::line::{Form, form_of};
use refusals::Refusal;

// What a line is: a comment, or a line with its form.
#[derive(Clone, Copy)]
pub enum Looked {
    Comment,
    Line(Form),
}

// What a line is, unless it is refused.
pub fn look(l: &[u8]) -> Result<Looked, Refusal>
    ensures { LookedAs l.now result }
{
    if text::lines::is_comment(l) {
        return Ok(Looked::Comment);
    }
    if l.len() > 200 {
        return Err(Refusal::LongLine);
    }
    if !text::bytes::all_allowed(l) {
        return Err(Refusal::StrangeByte);
    }
    match form_of(l) {
        Some(form) => Ok(Looked::Line(form)),
        None => Err(Refusal::NoForm),
    }
}
