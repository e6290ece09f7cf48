// Writing the lines of a load.
ghost use Rattle.std.specs.Prelude.{[], ◌∷◌, map, ◌<◌};
ghost use Rattle.text.specs.Spelled.{text_of};
ghost use Rattle.output.specs.Writing.{Room};
ghost use Rattle.spelling.specs.Page.{Sets};
ghost use Rattle.writing.specs.Lines.{line_text};
ghost use Rattle.writing.specs.Steps.{first_page};
ghost use Rattle.loading.specs.Load.{atom_lines, clauses_drawn, query_of_first, load_lines, load_text};

use crate::clause::{drawn_clause, load_name};
use crate::draws::Source;
use spelling::{Page, word};
use writing::line::{atom_line, begin, close};

// Writes the lines that name n atoms.
fn atom_lines(out: &mut [u8], g: Page, n: u64) -> Page
    requires { Room (text_of (map line_text (atom_lines n))) g.at }
    ensures { Sets (map line_text (atom_lines n)) out.old g result out.new }
{
    let mut page = g;
    for atom in 0..n {
        page = atom_line(out, page, load_name(&mut [0; 21], atom));
    }
    page
}

// Draws c clauses on n atoms one after the other from a seed on, and writes their lines.
fn drawn_clauses(out: &mut [u8], g: Page, n: u64, seed: u32, c: u64) -> Page
    requires { (0 < n) × Room (text_of (map line_text (clauses_drawn n seed c))) g.at }
    ensures { Sets (map line_text (clauses_drawn n seed c)) out.old g result out.new }
{
    let mut source = Source { state: seed };
    let mut page = g;
    for _done in 0..c {
        page = drawn_clause(out, page, n, &mut source);
    }
    page
}

// Writes the line that queries the first atom.
fn query_line(out: &mut [u8], g: Page) -> Page
    requires { Room (text_of (line_text query_of_first ∷ [])) g.at }
    ensures { Sets (line_text query_of_first ∷ []) out.old g result out.new }
{
    let p = begin(out, g, b"query");
    let q = word(out, p, load_name(&mut [0; 21], 0));
    close(out, g, q)
}

// Writes the lines of a load from the output's first byte on.
pub fn load_lines(out: &mut [u8], seed: u32, n: u64, c: u64) -> Page
    requires { (0 < n) × Room (load_text seed n c) 0 }
    ensures { Sets (map line_text (load_lines seed n c)) out.old first_page result out.new }
{
    let first = Page { at: 0, long: false };
    let named = atom_lines(out, first, n);
    let ruled = drawn_clauses(out, named, n, seed, c);
    query_line(out, ruled)
}
