// Cutoffs: what turning the worst grades away costs, where that is cheapest, and which of two scales is better by it.
#![tactic(auto)]

ghost use Rattle.std.specs.Prelude.{◌*◌, ◌≤◌, ◌≡◌, leb, pos, ◌+ℤ◌, ◌-ℤ◌, ◌*ℤ◌, length};
ghost use Rattle.std.specs.Int.Signed.{lt_z};
ghost use Rattle.table.specs.Table.{Counted, defaults_in, survivors_in};
ghost use Rattle.table.specs.Words.{table_in, HoldsTable};
ghost use Rattle.table.specs.Counts.{largest};
ghost use Rattle.pooling.specs.Pool.{as_grade};
ghost use Rattle.pooled_place.specs.Words.{HoldsPooledTable};
ghost use Rattle.cutoff.specs.Cutoff.{cheapest_of};
ghost use Rattle.cutoff.specs.Verdict.{never_dearer_lem, IsVerdict};
ghost use Rattle.cutoff.specs.Sweep.{scale_in, Sweepable, once, Light, Opposed, Comparable, most_pairs, counts_in, Few, FitsSigned};
ghost use Rattle.cutoff.specs.Sweep.{ahead, behind, IsLead, accepted_in, SmallIn, Turned};
ghost use Rattle.cutoff.specs.Sweep.{Finds, price_in, SmallPrice, SmallPrices, dearer_at, FindsPrices, verdict_of, IsVerdictInWeights};
ghost use Rattle.cutoff.specs.Claims.{Claims};

use pooled_place::listed_blocks;
use pooling::{Block, Blocks};
use table::{DEFAULTS, Survivors, grades_of, obligors_at};

// The highest price that a call takes.
pub const PRICE: u32 = 1_000_000;

// A cutoff, as the number of grades that it turns away, and what it costs.
#[derive(Clone, Copy)]
pub struct CheapestCutoff {
    pub cutoff: u32,
    pub cost: u64,
}

// The cheapest cutoff of the table in a lent place, at price u of a missed default and v of a survivor turned away.
// The loop goes from the worst grade to the best and keeps the cheapest cutoff of the grades passed: to accept one more grade costs
// its defaults, to turn it away costs the survivors of all of them.
#[tactic(auto, using(table::proofs::Words::few_in, table::proofs::Words::turn))]
pub fn cheapest(place: &[u32], u: u32, v: u32) -> CheapestCutoff
    requires holds_table { HoldsTable place.now }
    requires prices { (u ≤ 1_000_000) × (v ≤ 1_000_000) }
    ensures { result ≡ cheapest_of (table_in place.now) u v }
{
    let grades = grades_of(place);
    let mut passed = Survivors(0);
    let mut cutoff: u32 = 0;
    let mut cost: u64 = 0;
    for i in (0..grades).rev() {
        let d = place[DEFAULTS + i];
        passed = passed.plus(obligors_at(place, i).survivors(d));
        let away = (v as u64) * (passed.0 as u64);
        let accepted = (u as u64) * (d as u64) + cost;
        if away < accepted {
            cost = away;
            cutoff = (grades - i) as u32;
        } else {
            cost = accepted;
        }
    }
    CheapestCutoff { cutoff, cost }
}

// A pair of prices: u of a missed default, v of a survivor turned away.
#[derive(Clone, Copy)]
pub struct Price {
    pub u: u32,
    pub v: u32,
}

impl Price {
    // The prices at which missing a block's defaults costs as much as turning its survivors away, in the other scale's weights.
    fn break_even(b: Block, other: Weights) -> Price
        requires counted { Counted (as_grade b) }
        requires small { ((price_in other b).u ≤ largest) × ((price_in other b).v ≤ largest) }
        ensures { result ≡ price_in other b }
    {
        Price {
            u: b.obligors.survivors(b.defaults).0 * other.defaults,
            v: b.defaults * other.survivors.0,
        }
    }

    // Those of the block that was found, if one was.
    pub fn at_break_even(found: Option<Block>, other: Weights) -> Option<Price>
        requires { SmallPrice other found }
        ensures { result ≡ dearer_at other found }
    {
        found.map(|b| Price::break_even(b, other))
    }
}

// How often each default and each survivor of a scale counts.
#[derive(Clone, Copy)]
pub struct Weights {
    pub defaults: u32,
    pub survivors: Survivors,
}

// What a block counts in a scale, its defaults and its survivors each times their weight. These and their sums are no `Survivors`: they count
// pairs with the other scale's, and need 64 bits.
#[derive(Clone, Copy)]
struct Counts {
    defaults: u64,
    survivors: u64,
}

impl Weights {
    // What a block counts in these weights.
    fn counts(self, b: Block) -> Counts
        requires light { Light self }
        requires counted { Counted (as_grade b) × (b.obligors.0 ≤ 1_000_000) }
        ensures { result ≡ counts_in self (as_grade b) }
    {
        let lost = b.obligors.survivors(b.defaults);
        Counts {
            defaults: (self.defaults as u64) * (b.defaults as u64),
            survivors: (self.survivors.0 as u64) * (lost.0 as u64),
        }
    }
}

impl Counts {
    // Whether at this block's break-even prices, its survivors of a missed default and its defaults of a survivor turned away, turning
    // another's survivors away costs no more than missing its defaults.
    fn turns_away(self, b: Counts) -> bool
        requires { (self.defaults * b.survivors ≤ most_pairs) × (self.survivors * b.defaults ≤ most_pairs) }
        ensures { result ≡ leb (self.defaults * b.survivors) (self.survivors * b.defaults) }
    {
        self.defaults * b.survivors <= self.survivors * b.defaults
    }
}

// A scale: its blocks, best first, and how often each default and each survivor of them counts.
#[derive(Clone, Copy)]
pub struct Scale<'a> {
    pub blocks: &'a [Block],
    pub weights: Weights,
}

// How far a cutoff of the second scale is ahead of one of the first: by so many defaults caught and survivors turned away, which are negative
// where it is behind. The second accepts so many of its blocks.
#[derive(Clone, Copy)]
struct Lead {
    accepted: usize,
    defaults: i64,
    survivors: i64,
}

impl Lead {
    // No block of either scale is turned away.
    fn none(blocks: &[Block]) -> Lead
        ensures { result ≡ record { accepted = length blocks.now; defaults = pos 0; survivors = pos 0 } }
    {
        Lead {
            accepted: blocks.len(),
            defaults: 0,
            survivors: 0,
        }
    }

    // The second turns its next better block away, too.
    fn with(self, b: Counts) -> Lead
        requires some { 1 ≤ self.accepted }
        requires few { Few b }
        requires small { FitsSigned (self.defaults +ℤ pos b.defaults) × FitsSigned (self.survivors +ℤ pos b.survivors) }
        ensures { result ≡ ahead self b }
    {
        Lead {
            accepted: self.accepted - 1,
            defaults: self.defaults + (b.defaults as i64),
            survivors: self.survivors + (b.survivors as i64),
        }
    }

    // The first turns its next better block away, too.
    fn passed(self, at: Counts) -> Lead
        requires few { Few at }
        requires small { FitsSigned (self.defaults -ℤ pos at.defaults) × FitsSigned (self.survivors -ℤ pos at.survivors) }
        ensures { result ≡ behind self at }
    {
        Lead {
            accepted: self.accepted,
            defaults: self.defaults - (at.defaults as i64),
            survivors: self.survivors - (at.survivors as i64),
        }
    }

    // The second's cheapest cutoff at a block's break-even prices, which turns away all that this one does.
    fn turning_away(self, second: Scale<'_>, at: Counts) -> Lead
        requires scale { Sweepable second.blocks.now × (Light second.weights × IsLead second.weights (scale_in second.blocks.now) self) }
        requires fewer { accepted_in second.weights at (scale_in second.blocks.now) ≤ self.accepted }
        requires small { SmallIn second.weights (scale_in second.blocks.now) at }
        ensures { Turned second.entry.weights at (scale_in second.entry.blocks.now) self result }
    {
        let mut lead = self;
        for block in second.blocks[..self.accepted].iter().rev() {
            let next = second.weights.counts(*block);
            if !at.turns_away(next) {
                return lead;
            }
            lead = lead.with(next);
        }
        lead
    }

    // Whether the first costs more at a block's break-even prices u and v. All defaults of both scales cost the same, so that u (D - y) + v x
    // is more for the first exactly if u times the lead in y is more than v times the lead in x.
    fn shows_dearer(self, at: Counts) -> bool
        requires few { Few at }
        requires small { FitsSigned (pos at.defaults *ℤ self.survivors) × FitsSigned (pos at.survivors *ℤ self.defaults) }
        ensures { result ≡ lt_z (pos at.defaults *ℤ self.survivors) (pos at.survivors *ℤ self.defaults) }
    {
        (at.defaults as i64) * self.survivors < (at.survivors as i64) * self.defaults
    }
}

impl<'a> Scale<'a> {
    // Blocks of which each default and each survivor counts once.
    fn once(blocks: &'a [Block]) -> Scale<'a>
        ensures blocks { result.blocks.now ≡ blocks.now }
        ensures weights { result.weights ≡ once }
    {
        Scale {
            blocks,
            weights: Weights {
                defaults: 1,
                survivors: Survivors(1),
            },
        }
    }

    // A block at whose break-even prices this scale costs more than another. They are tried from the worst block on: there it is cheapest to
    // turn away the worse blocks of this scale, and of the other those whose survivors cost no more than their defaults. The prices of a better
    // block turn more of them away.
    pub fn where_dearer(self, other: Scale<'_>) -> Option<Block>
        requires { Opposed self.weights other.weights self.blocks.now other.blocks.now }
        ensures { Finds self.entry.weights other.entry.weights (scale_in self.entry.blocks.now) (scale_in other.entry.blocks.now) result }
    {
        let mut lead = Lead::none(other.blocks);
        for block in self.blocks.iter().rev() {
            let at = self.weights.counts(*block);
            lead = lead.turning_away(other, at);
            if lead.shows_dearer(at) {
                return Some(*block);
            }
            lead = lead.passed(at);
        }
        None
    }

    // The break-even prices of such a block.
    pub fn dearer_than(self, other: Scale<'_>) -> Option<Price>
        requires opposed { Opposed self.weights other.weights self.blocks.now other.blocks.now }
        requires small { SmallPrices other.weights (scale_in self.blocks.now) }
        ensures { FindsPrices self.entry.weights other.entry.weights (scale_in self.entry.blocks.now) (scale_in other.entry.blocks.now) result }
    {
        Price::at_break_even(self.where_dearer(other), other.weights)
    }
}

// Which of two scales is better.
#[derive(Clone, Copy)]
pub enum Verdict {
    Equal,
    // prices at which the second costs more
    First(Price),
    // prices at which the first costs more
    Second(Price),
    // prices at which the first costs more, and prices at which the second does
    Crossing(Price, Price),
}

impl Verdict {
    // Where the first costs more, and where the second does, make the verdict.
    pub fn of(first: Option<Price>, second: Option<Price>) -> Verdict
        ensures { result ≡ verdict_of first second }
    {
        match (first, second) {
            (None, None) => Verdict::Equal,
            (None, Some(q)) => Verdict::First(q),
            (Some(p), None) => Verdict::Second(p),
            (Some(p), Some(q)) => Verdict::Crossing(p, q),
        }
    }
}

// The verdict on two scales, each in its weights, which count all defaults of both the same, and all survivors. Inlined, so that weights of 1 cost
// nothing.
#[inline(always)]
pub fn judge_scales(first: Scale<'_>, second: Scale<'_>) -> Verdict
    requires { Comparable first.weights second.weights first.blocks.now second.blocks.now }
    ensures { IsVerdictInWeights first.entry.weights second.entry.weights (scale_in first.entry.blocks.now) (scale_in second.entry.blocks.now) result }
{
    let first_dearer = first.dearer_than(second);
    let second_dearer = second.dearer_than(first);
    Verdict::of(first_dearer, second_dearer)
}

// The verdict on the tables in two lent places, by their pooled lists, of equally many defaults and equally many survivors.
pub fn judge(first: &[u32], second: &[u32]) -> Verdict
    requires tables { HoldsPooledTable first.now × HoldsPooledTable second.now }
    requires defaults { defaults_in (table_in first.now) ≡ defaults_in (table_in second.now) }
    requires survivors { survivors_in (table_in first.now) ≡ survivors_in (table_in second.now) }
    ensures { IsVerdict (table_in first.now) (table_in second.now) result }
{
    let mut ours = Blocks::none();
    listed_blocks(first, &mut ours);
    let mut theirs = Blocks::none();
    listed_blocks(second, &mut theirs);
    judge_scales(Scale::once(ours.as_slice()), Scale::once(theirs.as_slice()))
}

// Whether a scale costs no more than another at any prices: the blocks of two tables of equally many defaults and equally many survivors. It is no
// part of its caller, so that the search has the registers to itself.
#[inline(never)]
pub fn never_dearer(first: &[Block], second: &[Block]) -> bool
    requires scales { Sweepable first.now × Sweepable second.now }
    requires defaults { defaults_in (scale_in first.now) ≡ defaults_in (scale_in second.now) }
    requires survivors { survivors_in (scale_in first.now) ≡ survivors_in (scale_in second.now) }
    ensures { result ≡ never_dearer_lem (scale_in first.now) (scale_in second.now) }
{
    let found = Scale::once(first).where_dearer(Scale::once(second));
    found.is_none()
}

// What is claimed of cutoffs: the function does nothing, its contract is all claims of this crate.
pub fn claims()
    ensures { Claims }
{}
