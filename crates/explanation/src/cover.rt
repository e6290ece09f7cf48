// Which of 64 settings have a proper subset that explains, by a bit for each setting that says whether it is covered:
// whether a subset of it, itself included, explains. The bit of setting s has place 59072 + s of the row.
ghost use Rattle.std.specs.Prelude.{◌≡◌, ℕ, ◌+◌, ◌*◌, ◌≤◌, ◌<◌, get_or};
ghost use Rattle.words.specs.Bits.{has};
ghost use Rattle.words.specs.OneBit.{BitOf};
ghost use Rattle.explanation.specs.Row.{row_bit, Glued, Droppable, Covers};

use planes::fill::AddedPlanes;
use program::cause::Causes;
use words::walk::bits_of;

// The upper bits of low from bit r on, and behind them the lower bits of high.
fn glue(low: u64, high: u64, r: u32) -> u64
    requires { (1 ≤ r) × (r < 64) }
    ensures { Glued low high r result }
{
    (low >> r) | (high << (64 - r))
}

// The 64 bits of the row from a place on.
fn bits(row: &[u64; 1848], place: usize) -> u64
    requires { place < 118208 }
    ensures { (j : ℕ) → j < 64 → has result j ≡ row_bit row.now (place + j) }
{
    let q = place / 64;
    let r = (place % 64) as u32;
    if r == 0 {
        return row[q];
    }
    glue(row[q], row[q + 1], r)
}

// The lanes, from a place of the row on, in which a setting that lacks one digit is covered.
fn dropped(
    row: &[u64; 1848],
    place: usize,
    causes: u64,
    weights: &[usize; 64],
    added: &AddedPlanes,
) -> u64
    requires { (place < 118144) × ((a : ℕ) → BitOf causes a → 2 * get_or weights.now a 0 ≤ place) }
    ensures { Droppable row.now place causes weights.now added.now.facts
        added.now.assumptions result }
{
    let mut lanes: u64 = 0;
    for a in bits_of(causes) {
        let at = a as usize;
        let w = weights[at];
        let facts = bits(row, place - w) & added.facts[at];
        let assumptions = bits(row, place - 2 * w) & added.assumptions[at];
        lanes |= facts | assumptions;
    }
    lanes
}

// Brings the bits of the 64 settings of word b into the row, of which those of e explain; answers those of which a
// proper subset explains.
pub fn cover(
    row: &mut [u64; 1848],
    b: usize,
    e: u64,
    causes: Causes,
    weights: &[usize; 64],
    added: &AddedPlanes,
) -> u64
    requires { (923 ≤ b) × (b < 1846)
        × ((a : ℕ) → BitOf causes.all a → 2 * get_or weights.now a 0 ≤ 59072) }
    ensures { Covers row.old b e causes weights.now added.now.facts added.now.assumptions
        row.new result }
{
    let mut word = e;
    row[b] = e;
    loop {
        let larger = dropped(row, 64 * b, causes.all, weights, added);
        let all = word | larger;
        if all == word {
            break larger;
        }
        word = all;
        row[b] = all;
    }
}
