// Firms that come and go (document 02's R-8): the four events at a grade of the table in a place, whose pooled list is made anew.
#![tactic(auto)]

ghost use Rattle.std.specs.Prelude.{◌≤◌, ◌<◌, ◌≡◌, [], ◌∷◌, length, get_or};
ghost use Rattle.table.specs.Table.{Counted, obligors_in};
ghost use Rattle.table.specs.Place.{blank};
ghost use Rattle.table.specs.Words.{table_in, HoldsTable};
ghost use Rattle.refusals.specs.Numbers.{number_in};
ghost use Rattle.book.specs.Checks.{at_most, fault};
ghost use Rattle.pooled_place.specs.Words.{HoldsPooledTable};
ghost use Rattle.events.specs.Events.{grade_after, table_after, firm_checks, event_fault};
ghost use Rattle.events.specs.Private.{grade_of, counts_of_lem, Takes, words_after_lem};
ghost use Rattle.events.specs.Claims.{Claims};

use pooled_place::{counts_of, pool_anew};
use refusals::Refusal;
use table::{DEFAULTS, OBLIGORS, Obligors, grades_of, obligors_at, obligors_of};

// What is booked at a grade.
#[derive(Clone, Copy, Debug, PartialEq, Eq)]
pub enum Event {
    SurvivorEnters,
    SurvivorLeaves,
    SurvivorDefaults,
    DefaultedRemoved,
}

// The counts of a grade.
#[derive(Clone, Copy)]
struct Counts {
    obligors: Obligors,
    defaults: u32,
}

// Whether there is such a firm.
fn check_firm(firms: u32) -> Result<(), Refusal>
    ensures { number_in result ≡ fault (at_most 1 firms 37 ∷ []) }
{
    if firms == 0 {
        return Err(Refusal::NoFirm);
    }
    Ok(())
}

// Whether there is such a firm, and it is not the last obligor of the table that goes.
fn check_exit(firms: u32, counts: &[u32]) -> Result<(), Refusal>
    requires { HoldsTable counts.now }
    ensures { number_in result ≡ fault (at_most 1 firms 37 ∷ at_most 2 (obligors_in (table_in counts.now)) 37 ∷ []) }
{
    if firms == 0 || obligors_of(counts).0 < 2 {
        return Err(Refusal::NoFirm);
    }
    Ok(())
}

// Whether the table has room for one more obligor.
fn check_entry(counts: &[u32]) -> Result<(), Refusal>
    requires { HoldsTable counts.now }
    ensures { number_in result ≡ fault (firm_checks Event.SurvivorEnters blank (obligors_in (table_in counts.now))) }
{
    if obligors_of(counts).0 < OBLIGORS {
        Ok(())
    } else {
        Err(Refusal::FullTable)
    }
}

impl Event {
    // Whether the event can be booked at a grade with these counts.
    fn check(self, at: Counts, counts: &[u32]) -> Result<(), Refusal>
        requires { HoldsTable counts.now × Counted (grade_of at) }
        ensures { number_in result ≡ fault (firm_checks self (grade_of at) (obligors_in (table_in counts.now))) }
    {
        let survivors = at.obligors.survivors(at.defaults);
        match self {
            Event::SurvivorEnters => check_entry(counts),
            Event::SurvivorLeaves => check_exit(survivors.0, counts),
            Event::SurvivorDefaults => check_firm(survivors.0),
            Event::DefaultedRemoved => check_exit(at.defaults, counts),
        }
    }

    // The counts of the grade after it.
    fn after(self, at: Counts) -> Counts
        requires { Takes self at }
        ensures { result ≡ counts_of_lem (grade_after self (grade_of at)) }
    {
        let obligors = at.obligors;
        match self {
            Event::SurvivorEnters => Counts {
                obligors: Obligors(obligors.0 + 1),
                defaults: at.defaults,
            },
            Event::SurvivorLeaves => Counts {
                obligors: Obligors(obligors.0 - 1),
                defaults: at.defaults,
            },
            Event::SurvivorDefaults => Counts {
                obligors,
                defaults: at.defaults + 1,
            },
            Event::DefaultedRemoved => Counts {
                obligors: Obligors(obligors.0 - 1),
                defaults: at.defaults - 1,
            },
        }
    }
}

// Books an event at a grade, the best being 1, of the table in a lent place, and makes its pooled list anew.
pub fn book_event(words: &mut [u32], event: Event, grade: u32) -> Result<(), Refusal>
    requires { HoldsPooledTable words.old }
    ensures value { number_in result ≡ event_fault event grade (table_in words.old) }
    ensures words_after { let w = words.old in words.new ≡ words_after_lem (number_in result) (table_after event grade (table_in w)) w }
{
    let g = grade as usize;
    let counts = counts_of(words);
    let grades = grades_of(counts);
    if g < 1 || grades < g {
        return Err(Refusal::NoGrade);
    }
    let i = g - 1;
    let at = Counts {
        obligors: obligors_at(counts, i),
        defaults: counts[DEFAULTS + i],
    };
    event.check(at, counts)?;
    let after = event.after(at);
    words[i] = after.obligors.0;
    words[DEFAULTS + i] = after.defaults;
    pool_anew(words);
    Ok(())
}

// What is claimed of events: the function does nothing, its contract is all claims of this crate.
pub fn claims()
    ensures { Claims }
{}
