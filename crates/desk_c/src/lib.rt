// The desk for callers in C and other languages: every entry point over the image of a desk in the caller's memory, of which a part is lent
// to the calls on words. A function returns 0 or the refusal number; its answer goes to a lent buffer, which a refusal leaves as it was.
#![tactic(auto)]

ghost use Rattle.std.specs.Prelude.{◌≡◌};
ghost use Rattle.cutoff.specs.Cutoff.{cheapest_of};
ghost use Rattle.measures.specs.Measures.{measures_of};
ghost use Rattle.measures.specs.Brier.{brier_of};
ghost use Rattle.spread.specs.Spread.{IsSpread};
ghost use Rattle.refusals.specs.Numbers.{number_in};
ghost use Rattle.refusals.specs.Answers.{leaves, says};
ghost use Rattle.calls.specs.Calls.{cheapest, measures, brier, spread, pool, load, clear, event};
ghost use Rattle.desk.specs.Desk.{fresh_desk};
ghost use Rattle.desk.specs.Calls.{ask, compare, compare_on_shares, fill, write, shortlist, change};
ghost use Rattle.desk.specs.Calls.{number_of, after, lent_after, lent_size};
ghost use Rattle.desk_c.specs.Image.{image_of, desk_in, table_on, IsImage};
ghost use Rattle.desk_c.specs.Numbers.{Left, cutoff_numbers, VerdictOn, VerdictOnShares, verdict_numbers, measures_numbers, fraction_numbers, spread_numbers};
ghost use Rattle.desk_c.specs.Private.{verdict_left};
ghost use Rattle.desk_c.specs.Version.{version};
ghost use Rattle.desk_c.specs.Claims.{Claims};

mod image;

use crate::image::{
    DESK, brier_at, cheapest_at, clear_at, counts_at, event_at, load_at, measures_at, pool_at,
    spread_at, words_at,
};
use cutoff::Verdict;
use events::Event;
use pooled_place::POOLED_PLACE;
use refusals::Refusal;

const VERSION: u32 = 10;

// The version of this library.
#[unsafe(no_mangle)]
pub extern "C" fn desk_version() -> u32
    ensures { result ≡ version }
{
    VERSION
}

// The same under a name with the number in it: a header of another version asks for another name, which the linker then misses.
#[unsafe(no_mangle)]
pub extern "C" fn desk_library_is_version_10() -> u32
    ensures { result ≡ version }
{
    desk_version()
}

// What a call that answers nothing further returns.
fn told(done: Result<(), Refusal>) -> u32
    ensures { result ≡ number_in done }
{
    match done {
        Ok(()) => 0,
        Err(refusal) => refusal.number(),
    }
}

// A fresh desk.
#[unsafe(no_mangle)]
pub extern "C" fn desk_empty(desk: &mut [u32; DESK]) -> u32
    ensures value { result ≡ 0 }
    ensures desk_after { desk.new ≡ image_of fresh_desk }
{
    *desk = [0; DESK];
    0
}

// Fills an empty place with the table of a rater of a book.
#[unsafe(no_mangle)]
pub extern "C" fn desk_load(desk: &mut [u32; DESK], place: u32, book: &[u8], rater: u32) -> u32
    requires { IsImage desk.old }
    ensures value { result ≡ number_of (desk_in desk.old) (change place (load book.now rater)) }
    ensures desk_after { desk.new ≡ image_of (after (desk_in desk.old) (change place (load book.now rater))) }
{
    told(load_at(desk, place, book, rater))
}

// Makes a loaded place as it is on a fresh desk.
#[unsafe(no_mangle)]
pub extern "C" fn desk_clear(desk: &mut [u32; DESK], place: u32) -> u32
    requires { IsImage desk.old }
    ensures value { result ≡ number_of (desk_in desk.old) (change place clear) }
    ensures desk_after { desk.new ≡ image_of (after (desk_in desk.old) (change place clear)) }
{
    told(clear_at(desk, place))
}

// A survivor enters a grade, the best being 1.
#[unsafe(no_mangle)]
pub extern "C" fn desk_survivor_enters(desk: &mut [u32; DESK], place: u32, grade: u32) -> u32
    requires { IsImage desk.old }
    ensures value { result ≡ number_of (desk_in desk.old) (change place (event Event.SurvivorEnters grade)) }
    ensures desk_after { desk.new ≡ image_of (after (desk_in desk.old) (change place (event Event.SurvivorEnters grade))) }
{
    told(event_at(desk, place, Event::SurvivorEnters, grade))
}

// A survivor leaves.
#[unsafe(no_mangle)]
pub extern "C" fn desk_survivor_leaves(desk: &mut [u32; DESK], place: u32, grade: u32) -> u32
    requires { IsImage desk.old }
    ensures value { result ≡ number_of (desk_in desk.old) (change place (event Event.SurvivorLeaves grade)) }
    ensures desk_after { desk.new ≡ image_of (after (desk_in desk.old) (change place (event Event.SurvivorLeaves grade))) }
{
    told(event_at(desk, place, Event::SurvivorLeaves, grade))
}

// A survivor defaults.
#[unsafe(no_mangle)]
pub extern "C" fn desk_survivor_defaults(desk: &mut [u32; DESK], place: u32, grade: u32) -> u32
    requires { IsImage desk.old }
    ensures value { result ≡ number_of (desk_in desk.old) (change place (event Event.SurvivorDefaults grade)) }
    ensures desk_after { desk.new ≡ image_of (after (desk_in desk.old) (change place (event Event.SurvivorDefaults grade))) }
{
    told(event_at(desk, place, Event::SurvivorDefaults, grade))
}

// A defaulted firm is removed.
#[unsafe(no_mangle)]
pub extern "C" fn desk_defaulted_removed(desk: &mut [u32; DESK], place: u32, grade: u32) -> u32
    requires { IsImage desk.old }
    ensures value { result ≡ number_of (desk_in desk.old) (change place (event Event.DefaultedRemoved grade)) }
    ensures desk_after { desk.new ≡ image_of (after (desk_in desk.old) (change place (event Event.DefaultedRemoved grade))) }
{
    told(event_at(desk, place, Event::DefaultedRemoved, grade))
}

// The three numbers of each grade of the table in a place, into a lent buffer whose further numbers are kept.
#[unsafe(no_mangle)]
pub extern "C" fn desk_pool(desk: &[u32; DESK], place: u32, numbers: &mut [u32]) -> u32
    requires { IsImage desk.now }
    ensures desk { desk.now ≡ image_of (after (desk_in desk.now) (fill place pool numbers.old)) }
    ensures value { result ≡ number_of (desk_in desk.now) (fill place pool numbers.old) }
    ensures numbers_after { numbers.new ≡ lent_after (desk_in desk.now) (fill place pool numbers.old) }
{
    told(pool_at(desk, place, numbers))
}

// The cheapest cutoff at price u of a missed default and v of a survivor turned away.
#[unsafe(no_mangle)]
pub extern "C" fn desk_cheapest(
    desk: &[u32; DESK],
    place: u32,
    u: u32,
    v: u32,
    answer: &mut [i64; 2],
) -> u32
    requires { IsImage desk.now }
    ensures desk { desk.now ≡ image_of (after (desk_in desk.now) (ask place (cheapest u v))) }
    ensures value { result ≡ number_of (desk_in desk.now) (ask place (cheapest u v)) }
    ensures answer_after { answer.new ≡ leaves result answer.old (cutoff_numbers (cheapest_of (table_on desk.now place) u v)) }
{
    match cheapest_at(desk, place, u, v) {
        Ok(c) => {
            *answer = [c.cutoff as i64, c.cost as i64];
            0
        }
        Err(refusal) => refusal.number(),
    }
}

// What a comparison returns, and leaves in the buffer of its answer.
fn put_verdict(compared: Result<Verdict, Refusal>, answer: &mut [u32; 5]) -> u32
    ensures value { result ≡ number_in compared }
    ensures answer_after { answer.new ≡ verdict_left (says compared) answer.old }
{
    match compared {
        Ok(v) => {
            *answer = numbers_of(v);
            0
        }
        Err(refusal) => refusal.number(),
    }
}

// Which of the two scales is better. Document 01 leaves open which price pairs the verdict carries, so the contract limits them.
#[unsafe(no_mangle)]
pub extern "C" fn desk_compare(desk: &[u32; DESK], answer: &mut [u32; 5]) -> u32
    requires { IsImage desk.now }
    ensures desk { desk.now ≡ image_of (after (desk_in desk.now) compare) }
    ensures value { result ≡ number_of (desk_in desk.now) compare }
    ensures left { Left result (VerdictOn desk.now) verdict_numbers answer.old answer.new }
{
    put_verdict(
        calls::compare(words_at(desk, 0), words_at(desk, POOLED_PLACE)),
        answer,
    )
}

// Which of the two scales is better on shares. Document 02 leaves open which price pairs the verdict carries, so the contract limits them:
// "The pairs carried have prices up to 2,500,000,000".
#[unsafe(no_mangle)]
pub extern "C" fn desk_compare_shares(desk: &[u32; DESK], answer: &mut [u32; 5]) -> u32
    requires { IsImage desk.now }
    ensures desk { desk.now ≡ image_of (after (desk_in desk.now) compare_on_shares) }
    ensures value { result ≡ number_of (desk_in desk.now) compare_on_shares }
    ensures left { Left result (VerdictOnShares desk.now) verdict_numbers answer.old answer.new }
{
    put_verdict(
        calls::compare_shares(words_at(desk, 0), words_at(desk, POOLED_PLACE)),
        answer,
    )
}

// The numbers of a verdict.
fn numbers_of(v: Verdict) -> [u32; 5]
    ensures { result ≡ verdict_numbers v }
{
    match v {
        Verdict::Equal => [0, 0, 0, 0, 0],
        Verdict::First(p) => [1, 0, 0, p.u, p.v],
        Verdict::Second(p) => [2, p.u, p.v, 0, 0],
        Verdict::Crossing(p, q) => [3, p.u, p.v, q.u, q.v],
    }
}

// D, S and the four measures of the table in a place.
#[unsafe(no_mangle)]
pub extern "C" fn desk_measures(desk: &[u32; DESK], place: u32, answer: &mut [i64; 11]) -> u32
    requires { IsImage desk.now }
    ensures desk { desk.now ≡ image_of (after (desk_in desk.now) (ask place measures)) }
    ensures value { result ≡ number_of (desk_in desk.now) (ask place measures) }
    ensures answer_after { answer.new ≡ leaves result answer.old (measures_numbers (measures_of (table_on desk.now place))) }
{
    match measures_at(desk, place) {
        Ok(m) => {
            *answer = [
                m.defaults as i64,
                m.survivors.0 as i64,
                m.gini.numerator,
                m.gini.denominator as i64,
                m.roc.numerator as i64,
                m.roc.denominator as i64,
                m.cap.numerator as i64,
                m.cap.denominator as i64,
                m.pietra.numerator,
                m.pietra.denominator as i64,
                m.cutoff as i64,
            ];
            0
        }
        Err(refusal) => refusal.number(),
    }
}

// The Brier score of the announced rates.
#[unsafe(no_mangle)]
pub extern "C" fn desk_brier(desk: &[u32; DESK], place: u32, answer: &mut [i64; 2]) -> u32
    requires { IsImage desk.now }
    ensures desk { desk.now ≡ image_of (after (desk_in desk.now) (ask place brier)) }
    ensures value { result ≡ number_of (desk_in desk.now) (ask place brier) }
    ensures answer_after { answer.new ≡ leaves result answer.old (fraction_numbers (brier_of (table_on desk.now place))) }
{
    match brier_at(desk, place) {
        Ok(f) => {
            *answer = [f.numerator as i64, f.denominator as i64];
            0
        }
        Err(refusal) => refusal.number(),
    }
}

// The spread record. Document 01 leaves the two floats open within their bounds, so the contract limits them.
#[unsafe(no_mangle)]
pub extern "C" fn desk_spread(desk: &[u32; DESK], place: u32, answer: &mut [f64; 2]) -> u32
    requires { IsImage desk.now }
    ensures desk { desk.now ≡ image_of (after (desk_in desk.now) (ask place spread)) }
    ensures value { result ≡ number_of (desk_in desk.now) (ask place spread) }
    ensures left { Left result (IsSpread (table_on desk.now place)) spread_numbers answer.old answer.new }
{
    match spread_at(desk, place) {
        Ok(s) => {
            *answer = [s.total, s.residual];
            0
        }
        Err(refusal) => refusal.number(),
    }
}

// The loaded places, 1 before 2, as a book of kind 0 in a lent buffer whose further bytes are kept, and the book's length.
#[unsafe(no_mangle)]
pub extern "C" fn desk_write(desk: &[u32; DESK], book: &mut [u8], written: &mut usize) -> u32
    requires { IsImage desk.now }
    ensures desk { desk.now ≡ image_of (after (desk_in desk.now) (write book.old)) }
    ensures value { result ≡ number_of (desk_in desk.now) (write book.old) }
    ensures book_after { book.new ≡ lent_after (desk_in desk.now) (write book.old) }
    ensures written_after { let d = desk_in desk.now in written.new ≡ leaves result written.old (lent_size d (write book.old)) }
{
    match book::write(counts_at(desk, 0), counts_at(desk, POOLED_PLACE), book) {
        Ok(n) => {
            *written = n;
            0
        }
        Err(refusal) => refusal.number(),
    }
}

// The numbers of the raters of a book for which no other one is better, in book order, into a lent buffer whose further numbers are kept, and how
// many there are. No desk plays a part: what is said here of a fresh one holds of every desk.
#[unsafe(no_mangle)]
pub extern "C" fn desk_shortlist(book: &[u8], numbers: &mut [u32], count: &mut usize) -> u32
    ensures desk { fresh_desk ≡ after fresh_desk (shortlist book.now numbers.old) }
    ensures value { result ≡ number_of fresh_desk (shortlist book.now numbers.old) }
    ensures numbers_after { numbers.new ≡ lent_after fresh_desk (shortlist book.now numbers.old) }
    ensures count_after { let c = shortlist book.now numbers.old in count.new ≡ leaves result count.old (lent_size fresh_desk c) }
{
    match desk::shortlist(book, numbers) {
        Ok(n) => {
            *count = n;
            0
        }
        Err(refusal) => refusal.number(),
    }
}

// What is claimed of images: the function does nothing, its contract is all claims of this crate.
pub fn claims()
    ensures { Claims }
{}
