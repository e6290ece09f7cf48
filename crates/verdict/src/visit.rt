// Settings visited one by one: each is marked in the work area, and counted and listed where it is minimal.
ghost use Rattle.std.specs.Prelude.{◌≡◌, List, ℕ, ◌+◌, ◌-◌, ◌≤◌, ◌<◌, min, length, set};
ghost use Rattle.words.specs.Bits.{has};
ghost use Rattle.planes.specs.Planes.{column};
ghost use Rattle.explanation.specs.Judge.{Judge};
ghost use Rattle.explanation.specs.Subset.{some_proper};
ghost use Rattle.verdict.specs.Lane.{Tells, Room, Seen};
ghost use Rattle.verdict.specs.Visited.{Visited};

use crate::counts::Counts;
use crate::query::{Queries, hold};
use planes::plane::TruthPlanes;

// What is found in the settings visited: the counts, and how many minimal ones are written to the list.
#[derive(Clone, Copy, Debug, PartialEq, Eq)]
pub struct Found {
    pub counts: Counts,
    pub written: usize,
}

// A block of settings, the one of lane 0 first. Those of the lanes of explains explain, those of the lanes of larger
// have a proper subset that explains, and the lanes of planes have what they settle to.
#[derive(Clone, Copy)]
pub struct Block<'a> {
    pub first: usize,
    pub explains: u64,
    pub larger: u64,
    pub planes: &'a TruthPlanes,
}

// Writes a setting into slot w of the list, where it has one; answers how many slots are written then.
fn put(list: &mut [u16], w: usize, setting: u16) -> usize
    ensures { (result ≡ w + min 1 (length list.old - w)) × (list.new ≡ set list.old w setting) }
{
    if w < list.len() {
        list[w] = setting;
        return w + 1;
    }
    w
}

// Takes the setting of lane j: marks it in the work area, and counts and lists it where it is minimal.
fn take(
    queries: Queries,
    block: Block,
    j: u32,
    found: Found,
    list: &mut [u16],
    work: &mut [u8],
) -> Found
    requires { (j < 64) × (block.first + j < 59049) × (block.first + j < length work.old)
        × Room queries.nodes.now queries.formula.now (block.first + j) found list.old }
    ensures visited { (J : Judge) (cs list₀ work₀ : List ℕ)
        → Tells J queries.entry.nodes.now queries.entry.formula.now (block.entry.first + j) (has block.entry.explains j)
        (column block.entry.planes.now.trues block.entry.planes.now.falses j)
        → has block.entry.larger j ≡ some_proper J.explains cs (block.entry.first + j)
        → Visited J cs list₀ work₀ (block.entry.first + j) found list.old work.old
        → Visited J cs list₀ work₀ (block.entry.first + j + 1) result list.new work.new }
    ensures room { Room queries.entry.nodes.now queries.entry.formula.now (block.entry.first + j + 1) result list.new }
{
    let setting = block.first + j as usize;
    let explains = words::test(block.explains, j);
    if !explains {
        work[setting] = 0;
        return found;
    }
    let larger = words::test(block.larger, j);
    if larger {
        work[setting] = 1;
        return found;
    }
    work[setting] = 2;
    Found {
        counts: hold(queries, block.planes, j, found.counts),
        written: put(list, found.written, setting as u16),
    }
}

// Takes the first m settings of a block.
pub fn visit(
    queries: Queries,
    block: Block,
    m: u32,
    found: Found,
    list: &mut [u16],
    work: &mut [u8],
) -> Found
    requires { (m ≤ 64) × (block.first + m ≤ 59049) × (block.first + m ≤ length work.old)
        × Room queries.nodes.now queries.formula.now block.first found list.old }
    ensures { (J : Judge) (cs list₀ work₀ : List ℕ)
        → Seen J cs queries.entry.nodes.now queries.entry.formula.now block.entry.explains block.entry.larger
        block.entry.planes.now.trues block.entry.planes.now.falses m block.entry.first
        → Visited J cs list₀ work₀ block.entry.first found list.old work.old
        → Visited J cs list₀ work₀ (block.entry.first + m) result list.new work.new }
{
    let mut found = found;
    for j in 0..m {
        found = take(queries, block, j, found, list, work);
    }
    found
}
