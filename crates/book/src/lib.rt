// The book of grade tables (document 01's "The book"): the table of a rater is read out of it, and tables are written as one.
#![tactic(auto)]

ghost use Rattle.book.specs.Claims.{Claims};

mod bytes;
mod layout;
mod reader;
mod writer;

pub use layout::{RATERS, check_head, check_tables, raters_of, start_of};
pub use reader::{read, read_table};
use table::Obligors;
pub use writer::write;

// A row of a table in a book: one grade.
#[derive(Clone, Copy)]
pub struct Row {
    pub obligors: Obligors,
    pub defaults: u32,
    // The announced default rate in ppm.
    pub announced: u32,
}

// What is claimed of books: the function does nothing, its contract is all claims of this crate.
pub fn claims()
    ensures { Claims }
{}
