// The calls on one place, over its words: every check but that of the place's number, and then the work. The two comparisons, which ask two
// places, are in `pair`.
#![tactic(auto)]

ghost use Rattle.std.specs.Prelude.{◌≡◌, length};
ghost use Rattle.table.specs.Counts.{totals_of_lem};
ghost use Rattle.table.specs.Place.{table_of};
ghost use Rattle.table.specs.Words.{place_in, table_in, IsPlace};
ghost use Rattle.pooling.specs.Numbers.{pooled_into};
ghost use Rattle.pooled_place.specs.Words.{pooled_place_size, pooled_place_words, IsPooledPlace};
ghost use Rattle.cutoff.specs.Cutoff.{cheapest_of};
ghost use Rattle.measures.specs.Measures.{measures_of};
ghost use Rattle.measures.specs.Brier.{brier_of};
ghost use Rattle.spread.specs.Spread.{IsSpread};
ghost use Rattle.refusals.specs.Numbers.{number_in};
ghost use Rattle.refusals.specs.Answers.{answer, leaves, Limited, says};
ghost use Rattle.calls.specs.Calls.{empty_fault, question_fault, cheapest, measures, brier, spread, fill_fault, pool};
ghost use Rattle.calls.specs.Calls.{change_fault, changed_to, load, clear, event};
ghost use Rattle.calls.specs.Private.{Fillable};

mod pair;

use cutoff::{CheapestCutoff, PRICE};
use events::Event;
use measures::{Measures, UnsignedFraction};
pub use pair::{compare, compare_shares};
use pooled_place::{counts_of, list_of, pool_anew, wipe_place};
use pooling::NUMBERS;
use refusals::Refusal;
use spread::Spread;
use table::{PLACE, Totals, grades_of, is_loaded, put_numbers};

// Fills an empty place with the table of a rater of a book, and makes its pooled list.
pub fn load(place: &mut [u32], book: &[u8], rater: u32) -> Result<(), Refusal>
    requires { Fillable place.old }
    ensures value { number_in result ≡ change_fault (place_in place.old) (load book.now rater) }
    ensures place_after { let w = place.old in place.new ≡ leaves (number_in result) w (pooled_place_words (changed_to (table_in w) (load book.now rater))) }
{
    if is_loaded(place) {
        return Err(Refusal::PlaceLoaded);
    }
    book::read(book, rater, &mut place[..PLACE])?;
    pool_anew(place);
    Ok(())
}

// Makes a loaded place as it is on a fresh desk.
pub fn clear(place: &mut [u32]) -> Result<(), Refusal>
    requires { length place.old ≡ pooled_place_size }
    ensures value { number_in result ≡ change_fault (place_in place.old) clear }
    ensures place_after { let w = place.old in place.new ≡ leaves (number_in result) w (pooled_place_words (changed_to (table_in w) clear)) }
{
    if !is_loaded(place) {
        return Err(Refusal::PlaceEmpty);
    }
    wipe_place(place);
    Ok(())
}

// Books an event at a grade of the table, and makes its pooled list anew.
pub fn book_event(place: &mut [u32], kind: Event, grade: u32) -> Result<(), Refusal>
    requires { IsPooledPlace place.old }
    ensures value { number_in result ≡ change_fault (place_in place.old) (event kind grade) }
    ensures place_after { let w = place.old in place.new ≡ leaves (number_in result) w (pooled_place_words (changed_to (table_in w) (event kind grade))) }
{
    if !is_loaded(place) {
        return Err(Refusal::PlaceEmpty);
    }
    events::book_event(place, kind, grade)
}

// The three numbers of each grade, into a lent buffer whose further numbers are kept. They are copied from the list.
pub fn pool(place: &[u32], out: &mut [u32]) -> Result<(), Refusal>
    requires { IsPooledPlace place.now }
    ensures value { number_in result ≡ fill_fault (place_in place.now) pool (length out.old) }
    ensures out_after { out.new ≡ leaves (number_in result) out.old (pooled_into (table_in place.now) out.old) }
{
    if !is_loaded(place) {
        return Err(Refusal::PlaceEmpty);
    }
    let numbers = NUMBERS * grades_of(place);
    if out.len() < numbers {
        return Err(Refusal::ShortBuffer);
    }
    let list = list_of(place);
    put_numbers(out, 0, &list[..numbers]);
    Ok(())
}

// The cheapest cutoff at price u of a missed default and v of a survivor turned away.
pub fn cheapest(place: &[u32], u: u32, v: u32) -> Result<CheapestCutoff, Refusal>
    requires { IsPlace place.now }
    ensures { let p = place_in place.now in says result ≡ answer (question_fault p (cheapest u v)) (cheapest_of (table_of p) u v) }
{
    if !is_loaded(place) {
        return Err(Refusal::PlaceEmpty);
    }
    if PRICE < u || PRICE < v {
        return Err(Refusal::HighPrice);
    }
    Ok(cutoff::cheapest(place, u, v))
}

// D, S and the four measures.
pub fn measures(place: &[u32]) -> Result<Measures, Refusal>
    requires { IsPlace place.now }
    ensures { let p = place_in place.now in says result ≡ answer (question_fault p measures) (measures_of (table_of p)) }
{
    if !is_loaded(place) {
        return Err(Refusal::PlaceEmpty);
    }
    let measured = measures::measure(place);
    if measured.defaults == 0 {
        return Err(Refusal::NoDefaults);
    }
    if measured.survivors.0 == 0 {
        return Err(Refusal::NoSurvivors);
    }
    Ok(measured)
}

// The Brier score of the announced rates.
pub fn brier(place: &[u32]) -> Result<UnsignedFraction, Refusal>
    requires { IsPlace place.now }
    ensures { let p = place_in place.now in says result ≡ answer (question_fault p brier) (brier_of (table_of p)) }
{
    if !is_loaded(place) {
        return Err(Refusal::PlaceEmpty);
    }
    Ok(measures::brier(place))
}

// The spread record. Document 01 leaves the two floats free within their bounds, so the contract limits them: "The price pairs and the two
// floats alone are freer, bound as above".
pub fn spread(place: &[u32]) -> Result<Spread, Refusal>
    requires { IsPooledPlace place.now }
    ensures { let p = place_in place.now in Limited (question_fault p spread) (IsSpread (table_of p)) (says result) }
{
    if !is_loaded(place) {
        return Err(Refusal::PlaceEmpty);
    }
    Ok(spread::spread_of(place))
}

// The totals of the table, for the comparisons.
fn totals(place: &[u32]) -> Result<Totals, Refusal>
    requires { IsPooledPlace place.now }
    ensures { let p = place_in place.now in says result ≡ answer (empty_fault p) (totals_of_lem (table_of p)) }
{
    if !is_loaded(place) {
        return Err(Refusal::PlaceEmpty);
    }
    Ok(table::totals_of(counts_of(place)))
}
