// The image of a desk: where the words of its places stand, and the calls that ask or change one of them there.
ghost use Rattle.std.specs.Prelude.{◌+◌, ◌≤◌, ◌≡◌, length, IfOk};
ghost use Rattle.cutoff.specs.Cutoff.{cheapest_of};
ghost use Rattle.measures.specs.Measures.{measures_of};
ghost use Rattle.measures.specs.Brier.{brier_of};
ghost use Rattle.pooled_place.specs.Words.{pooled_place_size};
ghost use Rattle.refusals.specs.Numbers.{number_in};
ghost use Rattle.refusals.specs.Answers.{answer, leaves, says};
ghost use Rattle.calls.specs.Calls.{cheapest, measures, brier, pool, spread, load, clear, event};
ghost use Rattle.desk.specs.Calls.{place_fault, ask, fill, change, number_of, after, lent_after, Spreads};
ghost use Rattle.desk_c.specs.Image.{image_of, desk_in, table_on, words_from, counts_from, IsImage};
ghost use Rattle.desk_c.specs.Private.{desk_size, start_of};

use cutoff::CheapestCutoff;
use events::Event;
use measures::{Measures, UnsignedFraction};
use pooled_place::POOLED_PLACE;
use refusals::Refusal;
use spread::Spread;
use table::PLACE;

// How many numbers a desk takes.
pub const DESK: usize = 484;

// Where the words of place 1 or 2 start.
#[tactic(auto, using(std::proofs::lemmas::Bool::Decides::nat_tests), unfolding(book::specs::Checks::fault))]
fn start_of(place: u32) -> Result<usize, Refusal>
    ensures number { number_in result ≡ place_fault place }
    ensures start { IfOk result (λ at. (at ≡ start_of place) × (at + pooled_place_size ≤ desk_size)) }
{
    match place {
        1 => Ok(0),
        2 => Ok(POOLED_PLACE),
        _ => Err(Refusal::NoPlace),
    }
}

// The words of the place that start at `at`.
pub fn words_at(desk: &[u32], at: usize) -> &[u32]
    requires { at + pooled_place_size ≤ length desk.now }
    ensures { result.now ≡ words_from desk.now at }
{
    &desk[at..at + POOLED_PLACE]
}

// The words of its counts.
pub fn counts_at(desk: &[u32], at: usize) -> &[u32]
    requires { at + pooled_place_size ≤ length desk.now }
    ensures { result.now ≡ counts_from desk.now at }
{
    &desk[at..at + PLACE]
}

// Fills an empty place with the table of a rater of a book.
pub fn load_at(desk: &mut [u32; DESK], place: u32, book: &[u8], rater: u32) -> Result<(), Refusal>
    requires { IsImage desk.old }
    ensures value { number_in result ≡ number_of (desk_in desk.old) (change place (load book.now rater)) }
    ensures desk_after { desk.new ≡ image_of (after (desk_in desk.old) (change place (load book.now rater))) }
{
    let at = start_of(place)?;
    calls::load(&mut desk[at..at + POOLED_PLACE], book, rater)
}

// Makes a loaded place as it is on a fresh desk.
pub fn clear_at(desk: &mut [u32; DESK], place: u32) -> Result<(), Refusal>
    requires { IsImage desk.old }
    ensures value { number_in result ≡ number_of (desk_in desk.old) (change place clear) }
    ensures desk_after { desk.new ≡ image_of (after (desk_in desk.old) (change place clear)) }
{
    let at = start_of(place)?;
    calls::clear(&mut desk[at..at + POOLED_PLACE])
}

// Books an event at a grade of the table in a place.
pub fn event_at(desk: &mut [u32; DESK], place: u32, kind: Event, grade: u32) -> Result<(), Refusal>
    requires { IsImage desk.old }
    ensures value { number_in result ≡ number_of (desk_in desk.old) (change place (event kind grade)) }
    ensures desk_after { desk.new ≡ image_of (after (desk_in desk.old) (change place (event kind grade))) }
{
    let at = start_of(place)?;
    calls::book_event(&mut desk[at..at + POOLED_PLACE], kind, grade)
}

// The three numbers of each grade of the table in a place, into a lent buffer whose further numbers are kept.
pub fn pool_at(desk: &[u32; DESK], place: u32, numbers: &mut [u32]) -> Result<(), Refusal>
    requires { IsImage desk.now }
    ensures value { number_in result ≡ number_of (desk_in desk.now) (fill place pool numbers.old) }
    ensures numbers_after { numbers.new ≡ lent_after (desk_in desk.now) (fill place pool numbers.old) }
{
    let at = start_of(place)?;
    calls::pool(words_at(desk, at), numbers)
}

// The cheapest cutoff at price u of a missed default and v of a survivor turned away.
pub fn cheapest_at(
    desk: &[u32; DESK],
    place: u32,
    u: u32,
    v: u32,
) -> Result<CheapestCutoff, Refusal>
    requires { IsImage desk.now }
    ensures { says result ≡ answer (number_of (desk_in desk.now) (ask place (cheapest u v))) (cheapest_of (table_on desk.now place) u v) }
{
    let at = start_of(place)?;
    calls::cheapest(counts_at(desk, at), u, v)
}

// D, S and the four measures of the table in a place.
pub fn measures_at(desk: &[u32; DESK], place: u32) -> Result<Measures, Refusal>
    requires { IsImage desk.now }
    ensures { says result ≡ answer (number_of (desk_in desk.now) (ask place measures)) (measures_of (table_on desk.now place)) }
{
    let at = start_of(place)?;
    calls::measures(counts_at(desk, at))
}

// The Brier score of the announced rates.
pub fn brier_at(desk: &[u32; DESK], place: u32) -> Result<UnsignedFraction, Refusal>
    requires { IsImage desk.now }
    ensures { says result ≡ answer (number_of (desk_in desk.now) (ask place brier)) (brier_of (table_on desk.now place)) }
{
    let at = start_of(place)?;
    calls::brier(counts_at(desk, at))
}

// The spread record, whose two floats are limited.
pub fn spread_at(desk: &[u32; DESK], place: u32) -> Result<Spread, Refusal>
    requires { IsImage desk.now }
    ensures { Spreads (desk_in desk.now) place (says result) }
{
    let at = start_of(place)?;
    calls::spread(words_at(desk, at))
}
