// Which raters no other one is better than, by their pooled scales.
ghost use Rattle.std.specs.Prelude.{◌+◌, ◌≤◌, ◌<◌, ◌≡◌, ◌++◌, length, drop};
ghost use Rattle.cutoff.specs.Verdict.{never_dearer_lem};
ghost use Rattle.shortlist.specs.Private.{table_held, Comparable, Searchable, beats, winner_of, compared, unmarked, unbeaten_in};

use crate::scales::Scale;
use book::RATERS;
use cutoff::never_dearer;

// Which of two raters is better: at least as good, and not the reverse. An `Option` of the better one would name the same three cases.
#[derive(Clone, Copy)]
pub enum Winner {
    First,
    Second,
    Neither,
}

// The better one of two raters.
fn better_of(first: &Scale, second: &Scale) -> Winner
    requires { Comparable first.now second.now }
    ensures { result ≡ winner_of (never_dearer_lem (table_held first.now) (table_held second.now))
        (never_dearer_lem (table_held second.now) (table_held first.now)) }
{
    let one = first.blocks.as_slice();
    let two = second.blocks.as_slice();
    match (never_dearer(one, two), never_dearer(two, one)) {
        (true, false) => Winner::First,
        (false, true) => Winner::Second,
        _ => Winner::Neither,
    }
}

// Compares rater j with those before it that are not beaten, until it is beaten itself, and marks who is. Who is beaten needs no further
// comparison: whom it beats an unbeaten one beats, too.
fn compare_with(held: &[Scale], j: usize, beaten: &mut [bool; RATERS])
    requires { Searchable held.now × (j < length held.now) }
    ensures { beaten.new ≡ compared (beats held.now) j j 0 beaten.old }
{
    for i in 0..j {
        if beaten[i] {
            continue;
        }
        match better_of(&held[i], &held[j]) {
            Winner::First => {
                beaten[j] = true;
                return;
            }
            Winner::Second => beaten[i] = true,
            Winner::Neither => {}
        }
    }
}

// Writes the numbers of the raters that are not beaten, and answers how many.
fn write_list(beaten: &[bool], out: &mut [u32]) -> usize
    requires { (length beaten.now ≤ 16) × (length beaten.now ≤ length out.old) }
    ensures value { result ≡ length (unmarked beaten.now) }
    ensures out_after { out.new ≡ unmarked beaten.now ++ drop result out.old }
{
    let mut count: usize = 0;
    for (i, &beaten) in beaten.iter().enumerate() {
        if !beaten {
            out[count] = i as u32 + 1;
            count += 1;
        }
    }
    count
}

// Lists the raters that no other one is better than, and answers how many. The further numbers of `out` are kept.
pub fn list_unbeaten(held: &[Scale], out: &mut [u32]) -> usize
    requires scales { Searchable held.now }
    requires room { length held.now ≤ length out.old }
    ensures value { result ≡ length (unbeaten_in held.now) }
    ensures out_after { out.new ≡ unbeaten_in held.now ++ drop result out.old }
{
    let raters = held.len();
    let mut beaten = [false; RATERS];
    for j in 0..raters {
        compare_with(held, j, &mut beaten);
    }
    write_list(&beaten[..raters], out)
}
