// The nodes of a formula.
ghost use Rattle.std.specs.Prelude.{◌≡◌, false, ◌≤◌, length, drop};
ghost use Rattle.words.specs.Choice.{pick};
ghost use Rattle.program.specs.Case.{part_size, name_size};
ghost use Rattle.text.specs.Tokens.{tokens};
ghost use Rattle.formulas.specs.Keyword.{node_of};
ghost use Rattle.names.specs.Row.{row_of};
ghost use Rattle.store.specs.Nodes.{nodes_from, node_table, with_nodes};

use crate::atom::atom_of;
use formulas::keyword::node_of;
use program::case::Case;
use text::tokens::{Next, token};

// What stands for the node of a word that is no form's, as the promise of `store_nodes` has it.
const NO_NODE: u8 = 69;

// The node of a word: of its form, or of its atom by a table of count names.
fn node_at(w: &[u8], form: bool, names: &[u8], count: usize) -> u8
    requires { (count ≤ 64) × (name_size ≤ length names.now) }
    ensures { result ≡ pick form (node_of w.now) (row_of names.now count w.now) }
{
    if form {
        node_of(w).unwrap_or(NO_NODE)
    } else {
        atom_of(names, count, w) as u8
    }
}

// Stores the nodes of the words from a place of a line on, by a table of count names, while there is room in a
// formula's part; answers how many there are.
pub fn store_nodes(l: &[u8], at: usize, names: &[u8], count: usize, nodes: &mut [u8]) -> usize
    requires { (count ≤ 64) × (name_size ≤ length names.now) × (part_size ≤ length nodes.old) }
    ensures { node_table result nodes.new ≡ with_nodes (node_table 0 nodes.old)
        (nodes_from (row_of names.now count) false (tokens (drop at l.now))) }
{
    let mut i = at;
    let mut n = 0;
    let mut opened = false;
    loop {
        match token(l, i) {
            Next::End => return n,
            Next::Open(next) => {
                opened = true;
                i = next;
            }
            Next::Close(next) => {
                opened = false;
                i = next;
            }
            Next::Word(a, e) => {
                if n >= Case::NODES {
                    return n;
                }
                nodes[n] = node_at(&l[a..e], opened, names, count);
                n += 1;
                opened = false;
                i = e;
            }
        }
    }
}
