// Writing the tables of lent places as a book of kind 0.
ghost use Rattle.std.specs.Prelude.{◌+◌, ◌*◌, ◌≤◌, ◌≡◌, [], ◌∷◌, length};
ghost use Rattle.table.specs.Words.{place_in, table_in};
ghost use Rattle.refusals.specs.Answers.{says};
ghost use Rattle.book.specs.Private.{stored, grade_of, encode_head, Writable, lent_tables};
ghost use Rattle.book.specs.Encode.{encode_grade, encode_grades, encode_table, size_of};
ghost use Rattle.book.specs.Writing.{write_answer, buffer_after};

use crate::Row;
use crate::bytes::{put_four, put_two};
use crate::layout::{HEAD, OFFSET, ROW, TABLE_HEAD};
use refusals::Refusal;
use table::{ANNOUNCED, DEFAULTS, grades_of, is_loaded, obligors_at};

// Where one offset behind the head of a book ends, and where two do.
const ONE_OFFSET_END: usize = HEAD + OFFSET;

const TWO_OFFSETS_END: usize = HEAD + 2 * OFFSET;

// Stores the 12 bytes of a row from `at` on.
fn put_row(out: &mut [u8], at: usize, r: Row)
    requires { at + 12 ≤ length out.old }
    ensures { out.new ≡ stored out.old at (encode_grade (grade_of r)) }
{
    put_four(out, at, r.obligors.0);
    put_four(out, at + 4, r.defaults);
    put_four(out, at + 8, r.announced);
}

// A lent place is passed as its words. (A struct with the ghost field that it is `Writable` would be no plainer: that is one word of each contract.)

// Stores the rows of the table in a lent place from `start` on.
fn put_rows(out: &mut [u8], start: usize, place: &[u32])
    requires writable { Writable place.now }
    requires room { start + 12 * (place_in place.now).grades ≤ length out.old }
    ensures { out.new ≡ stored out.old start (encode_grades (table_in place.now)) }
{
    for i in 0..grades_of(place) {
        let obligors = obligors_at(place, i);
        let row = Row {
            obligors,
            defaults: place[DEFAULTS + i],
            announced: place[ANNOUNCED + i],
        };
        put_row(out, start + ROW * i, row);
    }
}

// Stores the table in a lent place from `at` on.
fn put_table(out: &mut [u8], at: usize, place: &[u32])
    requires writable { Writable place.now }
    requires room { at + size_of (table_in place.now) ≤ length out.old }
    ensures { out.new ≡ stored out.old at (encode_table (table_in place.now)) }
{
    put_two(out, at, grades_of(place));
    put_two(out, at + 2, 0);
    put_rows(out, at + TABLE_HEAD, place);
}

// How many bytes the table in a lent place takes.
fn size_of(place: &[u32]) -> usize
    requires { Writable place.now }
    ensures { (result ≡ size_of (table_in place.now)) × (result ≤ 484) }
{
    TABLE_HEAD + ROW * grades_of(place)
}

// Stores what stands before the offset of a second table: the number of raters, the length, and the offset of the first table.
fn put_head(out: &mut [u8], raters: usize, size: usize)
    requires { (6 ≤ length out.old) × (raters ≤ 16) }
    ensures { out.new ≡ stored out.old 0 (encode_head raters size) }
{
    put_two(out, 0, raters);
    put_two(out, 2, size);
    put_two(out, HEAD, HEAD + OFFSET * raters);
}

// A book of the table in one place. (One function for it and for two tables would be no plainer: it tests thrice whether there is a second place,
// and each line of its contract does.)
fn write_one(place: &[u32], out: &mut [u8]) -> Result<usize, Refusal>
    requires { Writable place.now }
    ensures value { says result ≡ write_answer (table_in place.now ∷ []) (length out.old) }
    ensures out_after { out.new ≡ buffer_after (table_in place.now ∷ []) out.old }
{
    let size = ONE_OFFSET_END + size_of(place);
    if out.len() < size {
        return Err(Refusal::ShortBuffer);
    }
    put_head(out, 1, size);
    put_table(out, ONE_OFFSET_END, place);
    Ok(size)
}

// A book of the tables in two places.
fn write_two(first: &[u32], second: &[u32], out: &mut [u8]) -> Result<usize, Refusal>
    requires { Writable first.now × Writable second.now }
    ensures value { says result ≡ write_answer (table_in first.now ∷ table_in second.now ∷ []) (length out.old) }
    ensures out_after { out.new ≡ buffer_after (table_in first.now ∷ table_in second.now ∷ []) out.old }
{
    let next = TWO_OFFSETS_END + size_of(first);
    let end = next + size_of(second);
    if out.len() < end {
        return Err(Refusal::ShortBuffer);
    }
    put_head(out, 2, end);
    put_two(out, ONE_OFFSET_END, next);
    put_table(out, TWO_OFFSETS_END, first);
    put_table(out, next, second);
    Ok(end)
}

// A book of the loaded ones of two places, the first before the second.
pub fn write(first: &[u32], second: &[u32], out: &mut [u8]) -> Result<usize, Refusal>
    requires { Writable first.now × Writable second.now }
    ensures value { says result ≡ write_answer (lent_tables first.now second.now) (length out.old) }
    ensures out_after { out.new ≡ buffer_after (lent_tables first.now second.now) out.old }
{
    match (is_loaded(first), is_loaded(second)) {
        (true, true) => write_two(first, second, out),
        (true, false) => write_one(first, out),
        (false, true) => write_one(second, out),
        (false, false) => Err(Refusal::PlaceEmpty),
    }
}
