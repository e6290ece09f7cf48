// The first round in each lane, from the opening and from what the settings add.
ghost use Rattle.round.specs.Begin.{Opens};

use crate::redo::Changed;
use planes::fill::AddedPlanes;
use planes::opening::OpeningPlanes;
use planes::plane::TruthPlanes;
use planes::word::open_word;

// Fills the planes with those after the first round; answers what it changed.
pub fn begin(opening: &OpeningPlanes, added: &AddedPlanes, p: &mut TruthPlanes) -> Changed
    ensures { Opens opening.now.trues opening.now.falses opening.now.heads added.now.facts
        added.now.assumptions p.new.trues p.new.falses result }
{
    let mut c = Changed { lanes: 0, atoms: 0 };
    for i in 0..64 {
        let at = i as usize;
        let v = open_word(
            opening.trues[at],
            opening.falses[at],
            opening.heads[at],
            added.facts[at],
            added.assumptions[at],
        );
        p.trues[at] = v.trues;
        p.falses[at] = v.falses;
        c = c.with(i, v.trues | v.falses);
    }
    c
}
