// The layout of a book and its checks, each of which answers the first fault.
ghost use Rattle.std.specs.Prelude.{◌+◌, ◌*◌, ◌≤◌, ◌<◌, ◌≡◌, length};
ghost use Rattle.refusals.specs.Numbers.{number_in};
ghost use Rattle.book.specs.Checks.{fault};
ghost use Rattle.book.specs.Layout.{raters, start_of, head_checks, table_checks, tables_fault_lem};

use crate::bytes::{byte_at, two_at};
use refusals::Refusal;
use table::GRADES;

// The bytes of a book's head, of an offset, of a table's head and of a row.
pub const HEAD: usize = 4;

pub const OFFSET: usize = 2;

pub const TABLE_HEAD: usize = 4;

pub const ROW: usize = 12;

// The most raters of a book.
pub const RATERS: usize = 16;

// The number of raters.
pub fn raters_of(b: &[u8]) -> usize
    requires { 2 ≤ length b.now }
    ensures { (result ≡ raters b.now) × (result < 65536) }
{
    two_at(b, 0)
}

// Where the table of rater j starts.
pub fn start_of(b: &[u8], j: usize) -> usize
    requires { (1 ≤ j) × (4 + 2 * j ≤ length b.now) }
    ensures { result ≡ start_of b.now j }
{
    two_at(b, HEAD + OFFSET * (j - 1))
}

// The length of the book, and the number of raters.
pub fn check_head(b: &[u8]) -> Result<(), Refusal>
    ensures { number_in result ≡ fault (head_checks b.now) }
{
    if b.len() < HEAD || two_at(b, 2) != b.len() {
        return Err(Refusal::BookLength);
    }
    let raters = raters_of(b);
    if raters < 1 || RATERS < raters || b.len() < HEAD + OFFSET * raters {
        return Err(Refusal::RaterCount);
    }
    Ok(())
}

// The table of rater j, where the one before ended at `at`.
fn check_table(b: &[u8], j: usize, at: usize) -> Result<(), Refusal>
    requires { (1 ≤ j) × (4 + 2 * j ≤ length b.now) × (at ≤ length b.now) }
    ensures { number_in result ≡ fault (table_checks b.now j at) }
{
    if start_of(b, j) != at {
        return Err(Refusal::TableStart);
    }
    if b.len() - at < TABLE_HEAD {
        return Err(Refusal::TableEnd);
    }
    let grades = byte_at(b, at);
    if grades < 1 || GRADES < grades {
        return Err(Refusal::GradeCount);
    }
    if 1 < byte_at(b, at + 1) || two_at(b, at + 2) != 0 {
        return Err(Refusal::ColumnKind);
    }
    if at + TABLE_HEAD + ROW * grades <= b.len() {
        Ok(())
    } else {
        Err(Refusal::TableEnd)
    }
}

// All tables, and that nothing follows them.
pub fn check_tables(b: &[u8]) -> Result<(), Refusal>
    requires { fault (head_checks b.now) ≡ 0 }
    ensures { number_in result ≡ tables_fault_lem b.now }
{
    let raters = raters_of(b);
    let mut at = HEAD + OFFSET * raters;
    for j in 0..raters {
        check_table(b, j + 1, at)?;
        at += TABLE_HEAD + ROW * byte_at(b, at);
    }
    if at == b.len() {
        Ok(())
    } else {
        Err(Refusal::Leftover)
    }
}
