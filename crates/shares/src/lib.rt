// The comparison of two scales on shares, for books of different sizes: a cutoff costs u (D - y) / D + v x / S.
#![tactic(auto)]

ghost use Rattle.std.specs.Prelude.{◌≡◌};
ghost use Rattle.table.specs.Words.{table_in};
ghost use Rattle.table.specs.Counts.{totals_of_lem};
ghost use Rattle.pooled_place.specs.Words.{HoldsPooledTable};
ghost use Rattle.cutoff.specs.Sweep.{scale_in, Opposed, Finds};
ghost use Rattle.shares.specs.Judge.{Shareable, total_weights};
ghost use Rattle.shares.specs.Verdict.{IsVerdictByShares};
ghost use Rattle.shares.specs.Claims.{Claims};

use cutoff::{Price, Scale, Verdict, Weights};
use pooled_place::listed_blocks;
use pooling::{Block, Blocks};
use table::Totals;

// The most obligors of a table that is compared on shares.
pub const OBLIGORS_ON_SHARES: u32 = 100_000;

// A table's totals as the weights of the other. Times D1 S1 D2 S2 a cutoff's cost on shares is its cost on counts that are so weighted, at the
// prices u S1 S2 and v D1 D2. No `From`, since neither type is of this crate.
fn weights_of(t: Totals) -> Weights
    ensures { result ≡ total_weights t }
{
    Weights {
        defaults: t.defaults,
        survivors: t.survivors,
    }
}

// A block at whose break-even prices a scale costs more than another. It is no part of its caller, so that the search has the registers to itself.
#[inline(never)]
fn where_dearer(first: &Scale<'_>, second: &Scale<'_>) -> Option<Block>
    requires { Opposed first.now.weights second.now.weights first.now.blocks.now second.now.blocks.now }
    ensures { Finds first.now.weights second.now.weights (scale_in first.now.blocks.now) (scale_in second.now.blocks.now) result }
{
    first.where_dearer(*second)
}

// The verdict on shares on the tables in two lent places, by their pooled lists, whose totals are these.
// The prices of a block with d defaults and s survivors of a table with D and S are u = s D and v = d S, at most D S. With at most 100,000
// obligors that is at most 50,000 times 50,000. The cheapest cutoff of the table itself then costs the whole number s (D - y) + d x, at most D S
// too. Both sides of a comparison, times the other table's D S, and their difference with its sign, fit in 64 bits.
pub fn judge(first: &[u32], totals1: Totals, second: &[u32], totals2: Totals) -> Verdict
    requires tables { HoldsPooledTable first.now × HoldsPooledTable second.now }
    requires shareable { Shareable (table_in first.now) × Shareable (table_in second.now) }
    requires totals { (totals1 ≡ totals_of_lem (table_in first.now)) × (totals2 ≡ totals_of_lem (table_in second.now)) }
    ensures { IsVerdictByShares (table_in first.now) (table_in second.now) result }
{
    let weights1 = weights_of(totals2);
    let weights2 = weights_of(totals1);
    let mut ours = Blocks::none();
    listed_blocks(first, &mut ours);
    let mut theirs = Blocks::none();
    listed_blocks(second, &mut theirs);
    let first_scale = Scale {
        blocks: ours.as_slice(),
        weights: weights1,
    };
    let second_scale = Scale {
        blocks: theirs.as_slice(),
        weights: weights2,
    };
    let first_found = where_dearer(&first_scale, &second_scale);
    let second_found = where_dearer(&second_scale, &first_scale);
    let first_dearer = Price::at_break_even(first_found, weights2);
    let second_dearer = Price::at_break_even(second_found, weights1);
    Verdict::of(first_dearer, second_dearer)
}

// What is claimed of the comparison on shares: the function does nothing, its contract is all claims of this crate.
pub fn claims()
    ensures { Claims }
{}
