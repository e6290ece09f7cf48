// One walk over all settings in rising order, 64 at a time.
ghost use Rattle.std.specs.Prelude.{◌≡◌, ◌≤◌, length};
ghost use Rattle.program.specs.Case.{price_size};
ghost use Rattle.program.specs.Cause.{causes_of};
ghost use Rattle.program.specs.Setting.{choices_of, settings_of};
ghost use Rattle.explanation.specs.Judge.{judge_of};
ghost use Rattle.cost.specs.Cost.{cost_under};
ghost use Rattle.walk.specs.Walking.{AtHand, Walked};

use cost::cheapest::{Cheapest, choose, minimals_of};
use cost::price::priced_in;
use explanation::cover::cover;
use explanation::explain::explaining;
use explanation::weights::weigh;
use lanes::rounds::{Sums, lanes_of, run};
use planes::fill::{AddedPlanes, fill};
use planes::opening::OpeningPlanes;
use planes::plane::TruthPlanes;
use prepared::tables::prepare;
use program::case::Case;
use program::cause::{Additions, Causes};
use program::clauses::Clauses;
use program::tables::Tables;
use verdict::counts::Counts;
use verdict::query::Queries;
use verdict::visit::{Block, Found, visit};

// What is walked over: a case with its tables and prices, the heads of its clauses, its causes and the number of its
// settings.
#[derive(Clone, Copy)]
pub struct Course<'a> {
    pub case: Case,
    pub tables: Tables<'a>,
    pub prices: &'a [u32],
    pub heads: u64,
    pub causes: Causes,
    pub end: usize,
}

// What a walk leaves: what it found setting by setting, and 64 settings at a time the sums of the rounds and decided
// atoms, and the cheapest minimal setting.
#[derive(Clone, Copy)]
pub struct Tally {
    pub found: Found,
    pub sums: Sums,
    pub cheapest: Option<Cheapest>,
}

// Walks over the settings of a course, with the tables for settling prepared once. The row has a bit for each setting
// that is covered, from word 923 on.
pub fn walk(course: &Course, list: &mut [u16], work: &mut [u8]) -> Tally
    requires { AtHand course.now.case course.now.tables.clauses.now course.now.tables.constraints.now
        course.now.tables.formula.now course.now.heads course.now.causes
        × (course.now.end ≡ settings_of (causes_of course.now.case course.now.tables.clauses.now))
        × (course.now.end ≤ length work.old) × (price_size ≤ length course.now.prices.now) }
    ensures { Walked
        (judge_of course.now.case course.now.tables.clauses.now course.now.tables.constraints.now
        course.now.tables.formula.now)
        (cost_under course.now.prices.now (causes_of course.now.case course.now.tables.clauses.now))
        (choices_of (causes_of course.now.case course.now.tables.clauses.now)) list.old work.old course.now.end result
        list.new work.new }
{
    // The large locals stand first, since one that is made behind a call is zeroed twice.
    let mut row = [0u64; 1848];
    let mut planes = AddedPlanes {
        facts: [0; 64],
        assumptions: [0; 64],
    };
    let mut settled = TruthPlanes {
        trues: [0; 64],
        falses: [0; 64],
    };
    let Course {
        case,
        tables,
        prices,
        heads,
        causes,
        end,
    } = *course;
    let clauses = Clauses {
        words: tables.clauses,
        count: case.clauses,
    };
    let queries = Queries {
        nodes: &case.nodes,
        formula: tables.formula,
    };
    let preparation = prepare(clauses, heads);
    let opening = OpeningPlanes::of(preparation.opening);
    let weights = weigh(causes);
    let priced = priced_in(prices);
    let mut added = Additions {
        facts: 0,
        assumptions: 0,
    };
    let mut tally = Tally {
        found: Found {
            counts: Counts::none(case.formulas),
            written: 0,
        },
        sums: Sums {
            rounds: 0,
            decided: 0,
        },
        cheapest: None,
    };
    for b in 0..end.div_ceil(64) {
        let first = 64 * b;
        let m = lanes_of(end - first);
        let next = fill(causes, added, &mut planes);
        let sums = run(clauses, &preparation, &opening, m, &planes, &mut settled);
        let explains = explaining(case, tables.constraints, &settled);
        let larger = cover(&mut row, 923 + b, explains, causes, &weights, &planes);
        let block = Block {
            first,
            explains,
            larger,
            planes: &settled,
        };
        let minimals = minimals_of(explains, larger, m, first);
        tally.found = visit(queries, block, m, tally.found, list, work);
        tally.sums.rounds += sums.rounds;
        tally.sums.decided += sums.decided;
        tally.cheapest = choose(prices, priced, &planes, minimals, tally.cheapest);
        added = next;
    }
    tally
}
