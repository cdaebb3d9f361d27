// The measures of a rating scale: Gini, the curve areas, Pietra, and the Brier score of the announced rates.
#![tactic(auto)]

ghost use Rattle.std.specs.Prelude.{◌+◌, ◌-◌, ◌*◌, ◌≤◌, ◌≡◌};
ghost use Rattle.table.specs.Table.{defaults_in, survivors_in};
ghost use Rattle.table.specs.Words.{table_in, HoldsTable};
ghost use Rattle.measures.specs.Measures.{measures_of};
ghost use Rattle.measures.specs.Private.{pair_counts_of, farthest_of};
ghost use Rattle.measures.specs.Brier.{brier_of};
ghost use Rattle.measures.specs.Claims.{Claims};

use table::{ANNOUNCED, DEFAULTS, Obligors, PPM, Survivors, difference, grades_of, obligors_at};

// A fraction as document 01 writes it, not reduced.
#[derive(Clone, Copy)]
pub struct Fraction<N> {
    pub numerator: N,
    pub denominator: u64,
}

pub type UnsignedFraction = Fraction<u64>;

pub type SignedFraction = Fraction<i64>;

// D, S and the four measures of a table; `cutoff` is the smallest one at Pietra's distance from the diagonal.
#[derive(Clone, Copy)]
pub struct Measures {
    pub defaults: u32,
    pub survivors: Survivors,
    pub gini: SignedFraction,
    pub roc: UnsignedFraction,
    pub cap: UnsignedFraction,
    pub pietra: SignedFraction,
    pub cutoff: u32,
}

// C, X, D and S of a table. T is the rest of the D S pairs.
#[derive(Clone, Copy)]
struct PairCounts {
    concordant: u64,
    discordant: u64,
    defaults: u32,
    survivors: Survivors,
}

// The cutoff whose y S - x D has the largest absolute size, the smallest of equals, and that height, signed.
#[derive(Clone, Copy)]
struct FarthestCutoff {
    cutoff: u32,
    height: i64,
}

// How many pairs of a default and a survivor there are.
#[tactic(auto, using(table::proofs::Arithmetic::words_fit))]
fn pairs_of(defaults: u32, survivors: Survivors) -> u64
    ensures { result ≡ defaults * survivors.0 }
{
    (defaults as u64) * (survivors.0 as u64)
}

// How many of a default and an obligor: the CAP curve is over all obligors. One function over both kinds of count, or over bare numbers, would take
// obligors for survivors where `pairs_of` now refuses them.
#[tactic(auto, using(table::proofs::Arithmetic::words_fit))]
fn profile_of(defaults: u32, obligors: Obligors) -> u64
    ensures { result ≡ defaults * obligors.0 }
{
    (defaults as u64) * (obligors.0 as u64)
}

// From the worst grade to the best: each grade's survivors with the defaults in worse grades, and its defaults with the survivors there.
#[tactic(auto, using(table::proofs::Words::few_in, table::proofs::Words::turn))]
fn count_pairs(place: &[u32]) -> PairCounts
    requires { HoldsTable place.now }
    ensures { result ≡ pair_counts_of (table_in place.now) }
{
    let mut defaulted: u32 = 0;
    let mut survivors = Survivors(0);
    let mut concordant: u64 = 0;
    let mut discordant: u64 = 0;
    for i in (0..grades_of(place)).rev() {
        let d = place[DEFAULTS + i];
        let s = obligors_at(place, i).survivors(d);
        concordant += pairs_of(defaulted, s);
        discordant += pairs_of(d, survivors);
        defaulted += d;
        survivors = survivors.plus(s);
    }
    PairCounts {
        concordant,
        discordant,
        defaults: defaulted,
        survivors,
    }
}

// Cutoff by cutoff from none turned away, of which the height is 0, to all. `defaulted` and `survivors` are the table's.
#[tactic(auto, using(table::proofs::Words::few_in, table::proofs::Words::turn))]
fn farthest(place: &[u32], defaulted: u32, survivors: Survivors) -> FarthestCutoff
    requires holds_table { HoldsTable place.now }
    requires all_defaults { defaulted ≡ defaults_in (table_in place.now) }
    requires all_survivors { survivors.0 ≡ survivors_in (table_in place.now) }
    ensures { result ≡ farthest_of (table_in place.now) }
{
    let grades = grades_of(place);
    // The ROC curve and the diagonal at a cutoff, times D S.
    let mut curve: u64 = 0;
    let mut diagonal: u64 = 0;
    let mut cutoff: u32 = 0;
    let mut height: i64 = 0;
    let mut distance: u64 = 0;
    for i in (0..grades).rev() {
        let d = place[DEFAULTS + i];
        curve += pairs_of(d, survivors);
        diagonal += pairs_of(defaulted, obligors_at(place, i).survivors(d));
        let here = curve.abs_diff(diagonal);
        if distance < here {
            distance = here;
            height = difference(curve, diagonal);
            cutoff = (grades - i) as u32;
        }
    }
    FarthestCutoff { cutoff, height }
}

// The measures of the table in a lent place. Without a default or a survivor a denominator is 0.
pub fn measure(place: &[u32]) -> Measures
    requires { HoldsTable place.now }
    ensures { result ≡ measures_of (table_in place.now) }
{
    let counts = count_pairs(place);
    let defaulted = counts.defaults;
    let survivors = counts.survivors;
    let top = farthest(place, defaulted, survivors);
    let pairs = pairs_of(defaulted, survivors);
    let profile = profile_of(defaulted, survivors.with_defaults(defaulted));
    Measures {
        defaults: defaulted,
        survivors,
        gini: SignedFraction {
            numerator: difference(counts.concordant, counts.discordant),
            denominator: pairs,
        },
        // Every pair is one of C, X and T, so that this is 2C + T.
        roc: UnsignedFraction {
            numerator: pairs + counts.concordant - counts.discordant,
            denominator: 2 * pairs,
        },
        cap: UnsignedFraction {
            numerator: profile + counts.concordant - counts.discordant,
            denominator: 2 * profile,
        },
        pietra: SignedFraction {
            numerator: top.height,
            denominator: pairs,
        },
        cutoff: top.cutoff,
    }
}

// The square of a difference in ppm.
#[tactic(auto, using(table::proofs::Arithmetic::words_fit))]
fn square(ppm: u32) -> u64
    ensures { result ≡ ppm * ppm }
{
    (ppm as u64) * (ppm as u64)
}

// The squares of a grade: for each default of what the announced rate is short of all, and for each survivor of the rate itself.
fn squares(defaults: u32, survivors: Survivors, rate: u32) -> u64
    requires { (defaults + survivors.0 ≤ 1_000_000) × (rate ≤ 1_000_000) }
    ensures { result ≡ defaults * ((1_000_000 - rate) * (1_000_000 - rate)) + survivors.0 * (rate * rate) }
{
    let short = PPM - rate;
    (defaults as u64) * square(short) + (survivors.0 as u64) * square(rate)
}

// The Brier score of the announced rates of the table in a lent place.
#[tactic(auto, using(table::proofs::Words::few_in, table::proofs::Words::turn))]
pub fn brier(place: &[u32]) -> UnsignedFraction
    requires { HoldsTable place.now }
    ensures { result ≡ brier_of (table_in place.now) }
{
    let mut all = Obligors(0);
    let mut sum: u64 = 0;
    for i in (0..grades_of(place)).rev() {
        let n = obligors_at(place, i);
        let d = place[DEFAULTS + i];
        let s = n.survivors(d);
        sum += squares(d, s, place[ANNOUNCED + i]);
        all = all.plus(n);
    }
    UnsignedFraction {
        numerator: sum,
        denominator: (all.0 as u64) * 1_000_000_000_000,
    }
}

// What is claimed of the measures: the function does nothing, its contract is all claims of this crate.
pub fn claims()
    ensures { Claims }
{}
