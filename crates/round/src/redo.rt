// One round in each lane: the heads that the round before can have changed are decided anew where they are undecided.
ghost use Rattle.std.specs.Prelude.{◌≡◌, false, ◌*◌, ◌<◌};
ghost use Rattle.words.specs.Bits.{has};
ghost use Rattle.prepared.specs.Chains.{Lasts, Linked};
ghost use Rattle.planes.specs.Planes.{Planes, Sizes};
ghost use Rattle.round.specs.Redo.{noted_with, Noted, Taken, Decided, Committed, Redone};

use planes::plane::{Lanes, TruthPlanes, rules};
use planes::word::undecided;
use prepared::tables::Preparation;
use program::clauses::Clauses;
use words::walk::bits_of;

// What a round has changed: the lanes, and the atoms that changed in some lane.
#[derive(Clone, Copy)]
pub struct Changed {
    pub lanes: u64,
    pub atoms: u64,
}

impl Changed {
    // With an atom that changed in the lanes m, or in none.
    pub fn with(self, atom: u32, m: u64) -> Changed
        requires { atom < 64 }
        ensures { result ≡ noted_with self atom m }
    {
        if m == 0 {
            return self;
        }
        Changed {
            lanes: self.lanes | m,
            atoms: self.atoms | words::single(atom),
        }
    }
}

// Notes where an atom with the value v by its rules is decided among the open lanes.
fn note(c: Changed, a: u32, free: u64, v: Lanes, noted: &mut TruthPlanes) -> Changed
    requires { a < 64 }
    ensures { Noted c a free v noted.old.trues noted.old.falses noted.new.trues noted.new.falses result }
{
    let up = v.trues & free;
    let down = v.falses & free;
    noted.trues[a as usize] = up;
    noted.falses[a as usize] = down;
    c.with(a, up | down)
}

// Takes one head: where it is undecided, notes where its rules decide it.
fn turn(
    c: Changed,
    a: u32,
    clauses: Clauses,
    preparation: &Preparation,
    p: &TruthPlanes,
    noted: &mut TruthPlanes,
) -> Changed
    requires { (a < 64) × Lasts clauses.words.now clauses.count preparation.now.last
        × Linked clauses.words.now clauses.count preparation.now.prev × Planes p.now.trues p.now.falses
        × Sizes noted.old.trues noted.old.falses × (has c.atoms a ≡ false) }
    ensures { Taken clauses.entry.words.now clauses.entry.count p.now.trues p.now.falses a
        noted.old.trues noted.old.falses c noted.new.trues noted.new.falses result }
{
    let at = a as usize;
    let free = undecided(p.trues[at], p.falses[at]);
    if free == 0 {
        return c;
    }
    let v = rules(clauses, &preparation.prev, a, preparation.last[at], p);
    note(c, a, free, v, noted)
}

// Where the heads of a word are decided by their rules.
fn decide(
    heads: u64,
    clauses: Clauses,
    preparation: &Preparation,
    p: &TruthPlanes,
    noted: &mut TruthPlanes,
) -> Changed
    requires { Lasts clauses.words.now clauses.count preparation.now.last
        × Linked clauses.words.now clauses.count preparation.now.prev × Planes p.now.trues p.now.falses
        × Sizes noted.old.trues noted.old.falses }
    ensures { Decided clauses.entry.words.now clauses.entry.count heads p.now.trues p.now.falses
        noted.new.trues noted.new.falses result }
{
    let mut c = Changed { lanes: 0, atoms: 0 };
    for a in bits_of(heads) {
        c = turn(c, a, clauses, preparation, p, noted);
    }
    c
}

// Takes the lanes where the atoms of w are decided into the planes.
fn commit(w: u64, noted: &TruthPlanes, p: &mut TruthPlanes)
    ensures { Committed w noted.now.trues noted.now.falses p.old.trues p.old.falses
        p.new.trues p.new.falses }
{
    for i in bits_of(w) {
        p.trues[i as usize] |= noted.trues[i as usize];
        p.falses[i as usize] |= noted.falses[i as usize];
    }
}

// One round: the heads of a word decided anew, in each lane those that are undecided there; noted is overwritten.
// The sizes of noted are asked for as no type tells them where a structure is only passed on.
pub fn redo(
    heads: u64,
    clauses: Clauses,
    preparation: &Preparation,
    p: &mut TruthPlanes,
    noted: &mut TruthPlanes,
) -> Changed
    requires { Lasts clauses.words.now clauses.count preparation.now.last
        × Linked clauses.words.now clauses.count preparation.now.prev × Planes p.old.trues p.old.falses
        × Sizes noted.old.trues noted.old.falses }
    ensures redone { Redone clauses.entry.words.now clauses.entry.count heads p.old.trues
        p.old.falses p.new.trues p.new.falses result }
    ensures sizes { Sizes p.new.trues p.new.falses × Sizes noted.new.trues noted.new.falses }
{
    let c = decide(heads, clauses, preparation, p, noted);
    commit(c.atoms, noted, p);
    c
}
