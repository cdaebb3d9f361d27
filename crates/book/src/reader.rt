// Reading the table of a rater: each row is parsed once, checked and stored.
ghost use Rattle.std.specs.Prelude.{◌+◌, ◌≤◌, ◌≡◌, min, length, OnOk};
ghost use Rattle.table.specs.Counts.{capped};
ghost use Rattle.table.specs.Place.{fresh, place_of};
ghost use Rattle.table.specs.Words.{place_size, words_of};
ghost use Rattle.refusals.specs.Numbers.{number_in};
ghost use Rattle.book.specs.Checks.{fault};
ghost use Rattle.book.specs.Layout.{grades_at, end_of};
ghost use Rattle.book.specs.Rows.{obligors_by_lem, grade_in, table_from, table_of_rater, later_checks, table_fault_lem};
ghost use Rattle.book.specs.Reading.{read_fault};
ghost use Rattle.book.specs.Private.{number_of_kind, grade_of, capped_grade, sum_checks, words_after_lem};

use crate::Row;
use crate::bytes::{byte_at, four_at};
use crate::layout::{ROW, TABLE_HEAD, check_head, check_tables, raters_of, start_of};
use refusals::Refusal;
use table::{ANNOUNCED, DEFAULTS, GRADE_COUNT, LOADED, OBLIGORS, Obligors, PPM, Survivors, wipe};

// What the first column of a table counts.
#[derive(Clone, Copy)]
enum Kind {
    Obligors,
    Survivors,
}

impl Kind {
    // 0 stands for obligors; the layout's check leaves only 1 beside it.
    fn of(byte: usize) -> Kind
        ensures { number_of_kind result ≡ min byte 1 }
    {
        if byte == 0 {
            Kind::Obligors
        } else {
            Kind::Survivors
        }
    }
}

// The first column as obligors, by its kind. Until then it is a bare number: a count out of a book becomes one of its kind here alone.
fn obligors_by(kind: Kind, column: u32, defaults: u32) -> Obligors
    ensures { result.0 ≡ capped (obligors_by_lem (number_of_kind kind) column defaults) }
{
    match kind {
        Kind::Obligors => Obligors(column),
        Kind::Survivors => Survivors(column).with_defaults(defaults),
    }
}

// The row in the 12 bytes from `at` on.
fn row_at(b: &[u8], kind: Kind, at: usize) -> Row
    requires { at + 12 ≤ length b.now }
    ensures { grade_of result ≡ capped_grade (grade_in b.now (number_of_kind kind) at) }
{
    let column = four_at(b, at);
    let defaults = four_at(b, at + 4);
    let announced = four_at(b, at + 8);
    let obligors = obligors_by(kind, column, defaults);
    Row {
        obligors,
        defaults,
        announced,
    }
}

// The first fault of a row behind one that announced the rate `before`.
fn check_row(r: Row, before: u32) -> Result<(), Refusal>
    ensures { number_in result ≡ fault (later_checks before (grade_of r)) }
{
    if r.obligors.0 < r.defaults {
        return Err(Refusal::ManyDefaults);
    }
    if PPM < r.announced {
        return Err(Refusal::HighRate);
    }
    if r.announced < before {
        return Err(Refusal::FallingRate);
    }
    Ok(())
}

// The first fault of a table whose rows have none and sum to this many obligors, which may be more than an `Obligors` holds.
fn check_total(total: u64) -> Result<(), Refusal>
    ensures { number_in result ≡ fault (sum_checks total) }
{
    if total < 1 {
        return Err(Refusal::NoObligors);
    }
    if (OBLIGORS as u64) < total {
        return Err(Refusal::ManyObligors);
    }
    Ok(())
}

// Reads the table that starts at `start` into an empty place, checked row by row and then in total. After a fault the place means nothing.
pub fn read_table(b: &[u8], start: usize, place: &mut [u32]) -> Result<(), Refusal>
    requires inside { (end_of b.now start ≤ length b.now) × (grades_at b.now start ≤ 40) }
    requires empty { place.old ≡ words_of fresh }
    ensures value { number_in result ≡ table_fault_lem (table_from b.now start) }
    ensures place_after { OnOk result (place.new ≡ words_of (place_of (table_from b.now start))) }
    ensures place_len { length place.new ≡ place_size }
{
    let grades = byte_at(b, start);
    let kind = Kind::of(byte_at(b, start + 1));
    let mut total: u64 = 0;
    // The first row has none before it, and no rate is below 0.
    let mut before: u32 = 0;
    for i in 0..grades {
        let row = row_at(b, kind, start + TABLE_HEAD + ROW * i);
        check_row(row, before)?;
        place[i] = row.obligors.0;
        place[DEFAULTS + i] = row.defaults;
        place[ANNOUNCED + i] = row.announced;
        total += row.obligors.0 as u64;
        before = row.announced;
    }
    check_total(total)?;
    place[GRADE_COUNT] = grades as u32;
    place[LOADED] = 1;
    Ok(())
}

// Fills an empty place with the table that starts at `start`; a fault leaves it as it was.
fn fill(b: &[u8], start: usize, place: &mut [u32]) -> Result<(), Refusal>
    requires inside { (end_of b.now start ≤ length b.now) × (grades_at b.now start ≤ 40) }
    requires empty { place.old ≡ words_of fresh }
    ensures value { number_in result ≡ table_fault_lem (table_from b.now start) }
    ensures place_after { place.new ≡ words_after_lem (number_in result) (table_from b.now start) place.old }
{
    let filled = read_table(b, start, place);
    if filled.is_err() {
        // The rows before the fault are in the place.
        wipe(place);
    }
    filled
}

// Fills an empty place with the table of a rater; a fault leaves it as it was.
pub fn read(book: &[u8], rater: u32, place: &mut [u32]) -> Result<(), Refusal>
    requires { place.old ≡ words_of fresh }
    ensures value { number_in result ≡ read_fault book.now rater }
    ensures place_after { place.new ≡ words_after_lem (number_in result) (table_of_rater book.now rater) place.old }
{
    check_head(book)?;
    let raters = raters_of(book);
    let j = rater as usize;
    if j < 1 || raters < j {
        return Err(Refusal::NoRater);
    }
    check_tables(book)?;
    fill(book, start_of(book, j), place)
}
