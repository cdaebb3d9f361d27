// The pooled scales of all raters of a book, each read and pooled once.
ghost use Rattle.std.specs.Prelude.{◌≤◌, ◌≡◌, [], length, OnOk};
ghost use Rattle.refusals.specs.Numbers.{number_in};
ghost use Rattle.book.specs.Layout.{raters, grades_at, end_of, layout_fault};
ghost use Rattle.book.specs.Rows.{table_from, table_fault_lem};
ghost use Rattle.book.specs.Reading.{all_tables, table_faults};
ghost use Rattle.std.specs.List.{list_any};
ghost use Rattle.pooling.specs.Private.{listed};
ghost use Rattle.shortlist.specs.Private.{Holds, HoldsAll, no_totals, no_defaults, no_survivors, other_totals, held_totals_fault};

use book::{read_table, start_of};
use pooling::{Blocks, blocks_of};
use refusals::Refusal;
use table::{Obligors, PLACE, Survivors, Totals, totals_of};

// What is held of a rater: the blocks of its table, which are its pooled scale, and the totals.
#[derive(Clone, Copy)]
pub struct Scale {
    pub blocks: Blocks,
    pub totals: Totals,
}

impl Scale {
    // Nobody's, until one is read.
    pub fn none() -> Scale
        ensures blocks { listed result.blocks ≡ [] }
        ensures totals { result.totals ≡ no_totals }
    {
        Scale {
            blocks: Blocks::none(),
            totals: Totals {
                defaults: 0,
                survivors: Survivors(0),
                obligors: Obligors(0),
            },
        }
    }

    // Whether D or S differ from another's.
    fn differs(&self, other: &Scale) -> bool
        ensures { result ≡ other_totals self.now other.now }
    {
        self.totals.defaults != other.totals.defaults
            || self.totals.survivors.0 != other.totals.survivors.0
    }
}

// Reads and pools the table that starts at `start`, into a lent scale: one that is returned would be copied once more.
fn read_scale(book: &[u8], start: usize, scale: &mut Scale) -> Result<(), Refusal>
    requires { (end_of book.now start ≤ length book.now) × (1 ≤ grades_at book.now start) × (grades_at book.now start ≤ 40) }
    ensures value { number_in result ≡ table_fault_lem (table_from book.now start) }
    ensures scale { OnOk result (Holds scale.new (table_from book.now start)) }
{
    let mut place = [0u32; PLACE];
    read_table(book, start, &mut place)?;
    blocks_of(&place, &mut scale.blocks);
    scale.totals = totals_of(&place);
    Ok(())
}

// Reads and pools the tables of a book that is laid out, in its order.
pub fn read_scales(book: &[u8], held: &mut [Scale]) -> Result<(), Refusal>
    requires laid { layout_fault book.now ≡ 0 }
    requires room { length held.old ≡ raters book.now }
    ensures value { number_in result ≡ table_faults (all_tables book.now) }
    ensures scales { OnOk result (HoldsAll held.new (all_tables book.now)) }
{
    for (rater, scale) in held.iter_mut().enumerate() {
        read_scale(book, start_of(book, rater + 1), scale)?;
    }
    Ok(())
}

// Whether some rater has no defaults. This test and the next two stay functions of their own: where all three chains stand in one body, goals of it
// stay open.
fn lacks_defaults(held: &[Scale]) -> bool
    ensures { result ≡ list_any no_defaults held.now }
{
    held.iter().any(|scale| scale.totals.defaults == 0)
}

// Whether some rater has no survivors.
fn lacks_survivors(held: &[Scale]) -> bool
    ensures { result ≡ list_any no_survivors held.now }
{
    held.iter().any(|scale| scale.totals.survivors.0 == 0)
}

// Whether D or S of some rater differ from a given one's.
fn differs_from(held: &[Scale], first: &Scale) -> bool
    ensures { result ≡ list_any (λ scale. other_totals scale first.now) held.now }
{
    held.iter().any(|scale| scale.differs(first))
}

// 23 is tested over all raters, then 24 over all, then 25 between any two, which are the same exactly if all are as the first.
pub fn check_totals(held: &[Scale]) -> Result<(), Refusal>
    requires { 1 ≤ length held.now }
    ensures { number_in result ≡ held_totals_fault held.now }
{
    if lacks_defaults(held) {
        return Err(Refusal::NoDefaults);
    }
    if lacks_survivors(held) {
        return Err(Refusal::NoSurvivors);
    }
    if differs_from(held, &held[0]) {
        return Err(Refusal::UnequalTotals);
    }
    Ok(())
}
