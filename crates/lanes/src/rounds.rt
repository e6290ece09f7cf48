// Settling 64 settings at a time: rounds until no lane changes.
ghost use Rattle.std.specs.Prelude.{◌≡◌, ◌≤◌, min};
ghost use Rattle.prepared.specs.Prepared.{Prepared};
ghost use Rattle.planes.specs.Opening.{OpeningIn};
ghost use Rattle.lanes.specs.Rounds.{added_in, Settles};

use crate::decided::decided_in;
use planes::fill::AddedPlanes;
use planes::opening::OpeningPlanes;
use planes::plane::TruthPlanes;
use prepared::dependent::touched;
use prepared::tables::Preparation;
use program::clauses::Clauses;
use round::begin::begin;
use round::redo::redo;

// How many of the next 64 settings there are, where n are left.
pub fn lanes_of(n: usize) -> u32
    requires { 1 ≤ n }
    ensures { result ≡ min 64 n }
{
    n.min(64) as u32
}

// Two sums over settings: of their round counts, and of the numbers of atoms decided when they have settled.
#[derive(Clone, Copy)]
pub struct Sums {
    pub rounds: u64,
    pub decided: u64,
}

// Settles 64 settings in lanes, from the opening in each lane and from what they add, into the planes p; answers the
// sums over the first m of them. The planes are lent, since a kilobyte that is returned is copied twice.
pub fn run(
    clauses: Clauses,
    preparation: &Preparation,
    opening: &OpeningPlanes,
    m: u32,
    added: &AddedPlanes,
    p: &mut TruthPlanes,
) -> Sums
    requires { Prepared clauses.words.now clauses.count preparation.now
        × OpeningIn preparation.now.opening opening.now × (1 ≤ m) × (m ≤ 64) }
    ensures { Settles clauses.entry.words.now clauses.entry.count
        (added_in added.now.facts added.now.assumptions) m p.new.trues p.new.falses result }
{
    let mut noted = TruthPlanes {
        trues: [0; 64],
        falses: [0; 64],
    };
    let valid = words::lowest(m);
    let mut c = begin(opening, added, p);
    let mut total: u32 = 0;
    // The count of the rounds shows that they end.
    let mut k: u32 = 0;
    while c.lanes != 0 {
        total += words::count(c.lanes & valid);
        let heads = touched(&preparation.dependents, c.atoms);
        c = redo(heads, clauses, preparation, p, &mut noted);
        k += 1;
    }
    Sums {
        rounds: u64::from(total),
        decided: u64::from(decided_in(p, m)),
    }
}
