// The desk: two places side by side, and every call on them. A method looks at the place's number, turns the place into words and back, and
// leaves the rest to the call on words of its name in the crate `calls`.
#![tactic(auto)]

ghost use Rattle.std.specs.Prelude.{◌≡◌, eqb, length};
ghost use Rattle.table.specs.Words.{place_in, IsPlace};
ghost use Rattle.pooled_place.specs.PooledPlace.{marked_pooled_place};
ghost use Rattle.pooled_place.specs.Words.{pooled_place_size, pooled_place_words, pooled_place_in, IsPooledPlace};
ghost use Rattle.cutoff.specs.Cutoff.{cheapest_of};
ghost use Rattle.measures.specs.Measures.{measures_of};
ghost use Rattle.measures.specs.Brier.{brier_of};
ghost use Rattle.refusals.specs.Numbers.{number_in};
ghost use Rattle.refusals.specs.Answers.{answer, says};
ghost use Rattle.calls.specs.Calls.{cheapest, measures, brier, spread, pool, load, clear, event};
ghost use Rattle.desk.specs.Desk.{fresh_desk, pooled_place_at, place_at, table_at, with_place_lem, SoundDesk};
ghost use Rattle.desk.specs.Calls.{place_fault, ask, compare, compare_on_shares, fill, write, shortlist, change};
ghost use Rattle.desk.specs.Calls.{number_of, after, lent_after, Returns, Compares, ComparesByShares, Spreads};

use cutoff::{CheapestCutoff, Verdict};
use events::Event;
use measures::{Measures, UnsignedFraction};
use pooled_place::{POOLED_PLACE, PooledPlace};
use refusals::Refusal;
use spread::Spread;
use table::{LOADED, PLACE};

// The desk (document 01's term): two places, each empty or holding one table. That they are so is no invariant of the type but a `requires` of the
// calls that need it, since load and clear take any desk.
#[derive(Clone, Copy)]
pub struct Desk {
    pub first: PooledPlace,
    pub second: PooledPlace,
}

// Whether there is a place of this number.
#[tactic(auto, using(std::proofs::lemmas::Bool::Decides::nat_tests), unfolding(book::specs::Checks::fault))]
pub fn check_place(place: u32) -> Result<(), Refusal>
    ensures { number_in result ≡ place_fault place }
{
    match place {
        1 | 2 => Ok(()),
        _ => Err(Refusal::NoPlace),
    }
}

// The words of a place without a table, marked as loaded or not.
fn words_marked(loaded: bool) -> [u32; POOLED_PLACE]
    ensures { result ≡ pooled_place_words (marked_pooled_place loaded) }
{
    let mut words = [0u32; POOLED_PLACE];
    if loaded {
        words[LOADED] = 1;
    }
    words
}

impl Desk {
    // A fresh desk.
    pub fn empty() -> Desk
        ensures { result ≡ fresh_desk }
    {
        let first = PooledPlace::empty();
        let second = PooledPlace::empty();
        Desk { first, second }
    }

    // Place 1 or 2.
    fn at(&self, place: u32) -> &PooledPlace
        ensures { result.now ≡ pooled_place_at self.now place }
    {
        if place == 1 {
            &self.first
        } else {
            &self.second
        }
    }

    // The words of the counts in place 1 or 2.
    fn words(&self, place: u32) -> [u32; PLACE]
        requires { SoundDesk self.now }
        ensures holds { IsPlace result }
        ensures value { place_in result ≡ place_at self.now place }
    {
        self.at(place).place.words()
    }

    // The words of place 1 or 2 with its pooled list.
    fn pooled_words(&self, place: u32) -> [u32; POOLED_PLACE]
        requires { SoundDesk self.now }
        ensures holds { IsPooledPlace result }
        ensures value { place_in result ≡ place_at self.now place }
    {
        self.at(place).words()
    }

    // The words of an empty place with the mark of place 1 or 2: all that load and clear look at.
    fn mark(&self, place: u32) -> [u32; POOLED_PLACE]
        ensures { result ≡ pooled_place_words (marked_pooled_place (place_at self.now place).loaded) }
    {
        words_marked(self.at(place).place.loaded)
    }

    // Puts the place that words stand for where place 1 or 2 was.
    fn store(&mut self, place: u32, words: &[u32])
        requires { length words.now ≡ pooled_place_size }
        ensures { self.new ≡ with_place_lem self.old place (pooled_place_in words.now) }
    {
        let changed = PooledPlace::of_words(words);
        if place == 1 {
            self.first = changed;
        } else {
            self.second = changed;
        }
    }

    // Fills an empty place with the table of a rater of a book.
    pub fn load(&mut self, place: u32, book: &[u8], rater: u32) -> Result<(), Refusal>
        ensures desk_after { self.new ≡ after self.old (change place (load book.now rater)) }
        ensures value { number_in result ≡ number_of self.old (change place (load book.now rater)) }
    {
        check_place(place)?;
        let mut words = self.mark(place);
        calls::load(&mut words, book, rater)?;
        self.store(place, &words);
        Ok(())
    }

    // Makes a loaded place as it is on a fresh desk.
    pub fn clear(&mut self, place: u32) -> Result<(), Refusal>
        ensures desk_after { self.new ≡ after self.old (change place clear) }
        ensures value { number_in result ≡ number_of self.old (change place clear) }
    {
        check_place(place)?;
        let mut words = self.mark(place);
        calls::clear(&mut words)?;
        self.store(place, &words);
        Ok(())
    }

    // Books an event at a grade, the best being 1, of the table in a place. Each event has an entry point of its own below.
    pub fn book_event(&mut self, place: u32, kind: Event, grade: u32) -> Result<(), Refusal>
        requires { SoundDesk self.old }
        ensures desk_after { self.new ≡ after self.old (change place (event kind grade)) }
        ensures value { number_in result ≡ number_of self.old (change place (event kind grade)) }
    {
        check_place(place)?;
        let mut words = self.pooled_words(place);
        calls::book_event(&mut words, kind, grade)?;
        self.store(place, &words);
        Ok(())
    }

    // A survivor enters a grade, the best being 1.
    pub fn survivor_enters(&mut self, place: u32, grade: u32) -> Result<(), Refusal>
        requires { SoundDesk self.old }
        ensures desk_after { self.new ≡ after self.old (change place (event Event.SurvivorEnters grade)) }
        ensures value { number_in result ≡ number_of self.old (change place (event Event.SurvivorEnters grade)) }
    {
        self.book_event(place, Event::SurvivorEnters, grade)
    }

    // A survivor leaves.
    pub fn survivor_leaves(&mut self, place: u32, grade: u32) -> Result<(), Refusal>
        requires { SoundDesk self.old }
        ensures desk_after { self.new ≡ after self.old (change place (event Event.SurvivorLeaves grade)) }
        ensures value { number_in result ≡ number_of self.old (change place (event Event.SurvivorLeaves grade)) }
    {
        self.book_event(place, Event::SurvivorLeaves, grade)
    }

    // A survivor defaults.
    pub fn survivor_defaults(&mut self, place: u32, grade: u32) -> Result<(), Refusal>
        requires { SoundDesk self.old }
        ensures desk_after { self.new ≡ after self.old (change place (event Event.SurvivorDefaults grade)) }
        ensures value { number_in result ≡ number_of self.old (change place (event Event.SurvivorDefaults grade)) }
    {
        self.book_event(place, Event::SurvivorDefaults, grade)
    }

    // A defaulted firm is removed.
    pub fn defaulted_removed(&mut self, place: u32, grade: u32) -> Result<(), Refusal>
        requires { SoundDesk self.old }
        ensures desk_after { self.new ≡ after self.old (change place (event Event.DefaultedRemoved grade)) }
        ensures value { number_in result ≡ number_of self.old (change place (event Event.DefaultedRemoved grade)) }
    {
        self.book_event(place, Event::DefaultedRemoved, grade)
    }

    // The three numbers of each grade of the table in a place, into a lent buffer whose further numbers are kept.
    pub fn pool(&self, place: u32, out: &mut [u32]) -> Result<(), Refusal>
        requires { SoundDesk self.now }
        ensures desk { self.now ≡ after self.now (fill place pool out.old) }
        ensures out_after { out.new ≡ lent_after self.now (fill place pool out.old) }
        ensures value { number_in result ≡ number_of self.now (fill place pool out.old) }
    {
        check_place(place)?;
        calls::pool(&self.pooled_words(place), out)
    }

    // The cheapest cutoff at price u of a missed default and v of a survivor turned away.
    pub fn cheapest(&self, place: u32, u: u32, v: u32) -> Result<CheapestCutoff, Refusal>
        requires { SoundDesk self.now }
        ensures desk { self.now ≡ after self.now (ask place (cheapest u v)) }
        ensures value { let d = self.now in says result ≡ answer (number_of d (ask place (cheapest u v))) (cheapest_of (table_at d place) u v) }
    {
        check_place(place)?;
        calls::cheapest(&self.words(place), u, v)
    }

    // Which of the two scales is better. Document 01 leaves open which price pairs the verdict carries, so the contract limits them:
    // "Which pair is carried is free; its prices are at most 1,000,000 and its costs differ as said".
    pub fn compare(&self) -> Result<Verdict, Refusal>
        requires { SoundDesk self.now }
        ensures desk { self.now ≡ after self.now compare }
        ensures compares { Compares self.now (says result) }
    {
        calls::compare(&self.pooled_words(1), &self.pooled_words(2))
    }

    // Which of the two scales is better on shares, for books of different sizes. Document 02 leaves open which price pairs the verdict carries,
    // so the contract limits them: "The pairs carried have prices up to 2,500,000,000".
    pub fn compare_shares(&self) -> Result<Verdict, Refusal>
        requires { SoundDesk self.now }
        ensures desk { self.now ≡ after self.now compare_on_shares }
        ensures compares_by_shares { ComparesByShares self.now (says result) }
    {
        calls::compare_shares(&self.pooled_words(1), &self.pooled_words(2))
    }

    // D, S and the four measures of the table in a place.
    pub fn measures(&self, place: u32) -> Result<Measures, Refusal>
        requires { SoundDesk self.now }
        ensures desk { self.now ≡ after self.now (ask place measures) }
        ensures value { let d = self.now in says result ≡ answer (number_of d (ask place measures)) (measures_of (table_at d place)) }
    {
        check_place(place)?;
        calls::measures(&self.words(place))
    }

    // The Brier score of the announced rates.
    pub fn brier(&self, place: u32) -> Result<UnsignedFraction, Refusal>
        requires { SoundDesk self.now }
        ensures desk { self.now ≡ after self.now (ask place brier) }
        ensures value { let d = self.now in says result ≡ answer (number_of d (ask place brier)) (brier_of (table_at d place)) }
    {
        check_place(place)?;
        calls::brier(&self.words(place))
    }

    // The spread record. Document 01 leaves the two floats open, so the contract limits them: "The price pairs and the two floats alone
    // are freer, bound as above".
    pub fn spread(&self, place: u32) -> Result<Spread, Refusal>
        requires { SoundDesk self.now }
        ensures desk { self.now ≡ after self.now (ask place spread) }
        ensures spreads { Spreads self.now place (says result) }
    {
        check_place(place)?;
        calls::spread(&self.pooled_words(place))
    }

    // The loaded places, 1 before 2, as a book of kind 0 in a lent buffer whose further bytes are kept, and the book's length.
    pub fn write(&self, out: &mut [u8]) -> Result<usize, Refusal>
        requires { SoundDesk self.now }
        ensures desk { self.now ≡ after self.now (write out.old) }
        ensures out_after { out.new ≡ lent_after self.now (write out.old) }
        ensures returns { Returns self.now (write out.old) (says result) }
    {
        book::write(&self.words(1), &self.words(2), out)
    }
}

// The numbers of the raters of a book for which no other one is better, in book order, into a lent buffer whose further numbers are kept, and how
// many there are. No desk plays a part: what is said here of a fresh one holds of every desk.
pub fn shortlist(book: &[u8], out: &mut [u32]) -> Result<usize, Refusal>
    ensures desk { fresh_desk ≡ after fresh_desk (shortlist book.now out.old) }
    ensures out_after { out.new ≡ lent_after fresh_desk (shortlist book.now out.old) }
    ensures returns { Returns fresh_desk (shortlist book.now out.old) (says result) }
{
    shortlist::shortlist(book, out)
}
