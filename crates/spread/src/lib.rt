// The spread record: two floats, each with a proved error bound.
#![tactic(auto)]

ghost use Rattle.std.specs.Prelude.{◌-◌, ◌*◌, ◌≤◌};
ghost use Rattle.table.specs.Words.{table_in};
ghost use Rattle.pooling.specs.Fraction.{ratio};
ghost use Rattle.pooling.specs.Private.{spanning};
ghost use Rattle.pooled_place.specs.Words.{HoldsPooledTable};
ghost use Rattle.spread.specs.Near.{Within};
ghost use Rattle.spread.specs.Spread.{IsSpread, residual_sum};
ghost use Rattle.spread.specs.Claims.{Claims};

use pooled_place::counts_of;
use pooling::{Block, NUMBERS};
use table::{Obligors, PLACE, grades_of, obligors_at, totals_of};

// The two numbers of document 01's spread record.
#[derive(Clone, Copy)]
pub struct Spread {
    pub total: f64,
    pub residual: f64,
}

// Defaults times survivors over obligors. Only the quotient is rounded: an f64 holds the product and the obligors.
fn quotient(defaults: u32, obligors: Obligors) -> f64
    requires defaults_le_obligors { defaults ≤ obligors.0 }
    requires le_obligors { 1 ≤ obligors.0 }
    requires obligors_bound { obligors.0 ≤ 1_000_000 }
    ensures { Within result (ratio (defaults * (obligors.0 - defaults)) obligors.0) 36 }
{
    let survivors = obligors.survivors(defaults);
    ((defaults as u64) * (survivors.0 as u64)) as i64 as f64 / obligors.0 as f64
}

// The sum over the blocks of the table in a lent place, best first, of block defaults times block survivors over block obligors. A grade of the
// pooled list with the numbers of the one before is of the same block.
fn residual(place: &[u32]) -> f64
    requires { HoldsPooledTable place.now }
    ensures { Within result (residual_sum (spanning (table_in place.now))) 29 }
{
    let mut last: Option<Block> = None;
    let mut sum = 0.0;
    for i in 0..grades_of(place) {
        let at = PLACE + NUMBERS * i;
        let defaults = place[at];
        let obligors = obligors_at(place, at + 1);
        if !last.is_some_and(|block| block.shows(defaults, obligors)) {
            sum += quotient(defaults, obligors);
            last = Some(Block {
                grades: 1,
                obligors,
                defaults,
            });
        }
    }
    sum
}

// The spread of the table in a lent place, by its pooled list. Document 01 leaves the two floats free within their bounds, so the contract limits
// them.
pub fn spread_of(place: &[u32]) -> Spread
    requires { HoldsPooledTable place.now }
    ensures { IsSpread (table_in place.now) result }
{
    let t = totals_of(counts_of(place));
    Spread {
        total: quotient(t.defaults, t.obligors),
        residual: residual(place),
    }
}

// What is claimed of the spread: the function does nothing, its contract is all claims of this crate.
pub fn claims()
    ensures { Claims }
{}
