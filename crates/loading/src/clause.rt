// Drawing a clause, and writing its line.
ghost use Rattle.std.specs.Prelude.{◌≡◌, [], ◌∷◌, ◌+◌, ◌*◌, ◌%◌, ◌<◌, leb};
ghost use Rattle.words.specs.Choice.{pick};
ghost use Rattle.text.specs.Spelled.{text_of};
ghost use Rattle.grammar.specs.Line.{body_tokens};
ghost use Rattle.output.specs.Writing.{Room};
ghost use Rattle.spelling.specs.Pen.{inked, Spells};
ghost use Rattle.spelling.specs.Page.{Sets};
ghost use Rattle.writing.specs.Lines.{line_text};
ghost use Rattle.loading.specs.Draws.{state_after, draw};
ghost use Rattle.loading.specs.Load.{load_name, literals_drawn, clause_drawn, draw_count};

use crate::draws::Source;
use output::{put, put_decimal};
use spelling::{Page, Pen, word};
use writing::body::literal;
use writing::line::{begin_clause, close};

// Spells the name of an atom in lent bytes.
pub fn load_name(spelled: &mut [u8; 21], atom: u64) -> &[u8]
    ensures { result.now ≡ load_name atom }
{
    let number = put(spelled, 0, b'a');
    let end = put_decimal(spelled, number, atom);
    &spelled[..end]
}

// Draws k literals on n atoms, and writes them.
fn drawn_literals(out: &mut [u8], p: Pen, n: u64, source: &mut Source, k: u64) -> Pen
    requires { (0 < n) × Room (inked p (body_tokens (literals_drawn n source.old.state k))) p.at }
    ensures written { Spells (body_tokens (literals_drawn n source.old.state k)) out.old p result out.new }
    ensures drawn { source.new.state ≡ state_after (2 * k) source.old.state }
{
    let mut pen = p;
    for _done in 0..k {
        let atom = source.draw() % n;
        let negated = source.draw() % 2 == 1;
        pen = literal(out, pen, load_name(&mut [0; 21], atom), negated);
    }
    pen
}

// Draws how many literals a clause of a kind has: a rule one to three, any other none.
#[tactic(auto, unfolding(crate::specs::Draws::state_after))]
fn literal_count(source: &mut Source, kind: u64) -> u64
    ensures counted { result ≡ pick (leb 2 kind) (1 + draw 1 source.old.state % 3) 0 }
    ensures drawn { source.new.state ≡ state_after (pick (leb 2 kind) 1 0) source.old.state }
{
    if kind < 2 {
        return 0;
    }
    1 + source.draw() % 3
}

// Draws a clause on n atoms, and writes its line.
pub fn drawn_clause(out: &mut [u8], g: Page, n: u64, source: &mut Source) -> Page
    requires { (0 < n) × Room (text_of (line_text (clause_drawn n source.old.state) ∷ [])) g.at }
    ensures written { Sets (line_text (clause_drawn n source.old.state) ∷ []) out.old g result out.new }
    ensures drawn { source.new.state ≡ state_after (draw_count source.old.state) source.old.state }
{
    let head = source.draw() % n;
    let kind = (source.draw() % 8).min(2);
    let count = literal_count(source, kind);
    let p = begin_clause(out, g, kind);
    let q = word(out, p, load_name(&mut [0; 21], head));
    let s = drawn_literals(out, q, n, source, count);
    close(out, g, s)
}
