// The operation *layer report*.
ghost use Rattle.names.specs.Row.{name_in};
ghost use Rattle.layer_report.specs.Entries.{layers_shown, Told};
ghost use Rattle.layer_report.specs.Operation.{LayersReported};

use crate::lines::{numbers_text, ring_text};
use layering::answer::Layers;
use layering::operation::layers;
use program::case::Case;
use program::tables::Tables;
use reader::read::read;
use refusals::Refusal;
use report::operation::show_refusal;
use report::show::{Shown, show};

// The least numbers of a layered case, or a ring, with the names.
#[derive(Clone, Copy)]
struct LayersText<'a> {
    layers: Layers,
    names: &'a [u8],
}

impl Shown for LayersText<'_> {
    ghost shown_as = { λ s. layers_shown (name_in s.names.now) s.layers };

    ghost can_write = { λ s. Told s.names.now s.layers };

    fn write(&self, out: &mut [u8]) -> usize {
        match &self.layers {
            Layers::Layered(found) => {
                let numbers = &found.entries[..found.count];
                numbers_text(out, self.names, numbers)
            }
            Layers::Ring(found) => {
                let atoms = &found.entries[..found.count];
                ring_text(out, self.names, atoms)
            }
        }
    }
}

// Writes the text of a file's layers, or of a ring, to a lent output, and answers its length. Refuses an output shorter
// than the text, and then touches nothing.
pub fn layer_report(file: &[u8], out: &mut [u8]) -> Result<usize, Refusal>
    ensures { LayersReported file.now out.old result out.new }
{
    let mut clauses = [0; Case::CLAUSE_WORDS];
    let mut constraints = [0; Case::CONSTRAINT_WORDS];
    let mut formula = [0; Case::FORMULA_BYTES];
    let mut names = [0; Case::NAME_BYTES];
    let mut prices = [0; Case::PRICES];
    let found = read(
        file,
        &mut clauses,
        &mut constraints,
        &mut formula,
        &mut names,
        &mut prices,
    );
    let c = match found {
        Ok(c) => c,
        Err(refused) => return show_refusal(u32::from(refused.refusal), refused.line, out),
    };
    let tables = Tables {
        clauses: &clauses,
        constraints: &constraints,
        formula: &formula,
    };
    let text = LayersText {
        layers: layers(c, tables).unwrap(),
        names: &names,
    };
    show(&text, out)
}
