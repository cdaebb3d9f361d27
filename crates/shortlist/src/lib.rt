// The shortlist of a book (document 02's R-7): the raters for which no other rater of the book is better.
#![tactic(auto)]

ghost use Rattle.std.specs.Prelude.{◌≡◌, length, take, OnOk};
ghost use Rattle.refusals.specs.Numbers.{number_in};
ghost use Rattle.refusals.specs.Answers.{says};
ghost use Rattle.book.specs.Layout.{raters};
ghost use Rattle.book.specs.Reading.{all_tables, book_fault};
ghost use Rattle.shortlist.specs.Checks.{shortlist_answer, buffer_after};
ghost use Rattle.shortlist.specs.Private.{HoldsAll};
ghost use Rattle.shortlist.specs.Claims.{Claims};

mod beaten;
mod scales;

use crate::beaten::list_unbeaten;
use crate::scales::{Scale, check_totals, read_scales};
use book::{RATERS, check_head, check_tables, raters_of};
use refusals::Refusal;

// Checks a book as a whole and holds the pooled scales of its raters.
fn read_book(book: &[u8], held: &mut [Scale; RATERS]) -> Result<(), Refusal>
    ensures value { number_in result ≡ book_fault book.now }
    ensures scales { OnOk result (HoldsAll (take (raters book.now) held.new) (all_tables book.now)) }
{
    check_head(book)?;
    check_tables(book)?;
    read_scales(book, &mut held[..raters_of(book)])
}

// The numbers of the raters of a book for which no other one is better, in book order, into a lent buffer whose further numbers are kept.
pub fn shortlist(book: &[u8], out: &mut [u32]) -> Result<usize, Refusal>
    ensures value { says result ≡ shortlist_answer book.now (length out.old) }
    ensures out_after { out.new ≡ buffer_after book.now out.old }
{
    let mut room = [Scale::none(); RATERS];
    read_book(book, &mut room)?;
    let held = &room[..raters_of(book)];
    check_totals(held)?;
    if out.len() < held.len() {
        return Err(Refusal::ShortBuffer);
    }
    Ok(list_unbeaten(held, out))
}

// What is claimed of shortlists: the function does nothing, its contract is all claims of this crate.
pub fn claims()
    ensures { Claims }
{}
