// Each command, run on the desk.
ghost use Rattle.desk.specs.Desk.{SoundDesk};

use crate::script::{Call, Load, read_full};
use desk::Desk;
use events::Event;
use std::io;
use std::io::{Read, Write};

// The longest book, in bytes.
const BOOK: usize = 65_535;

// The longest buffer of numbers that is lent, and what it holds before.
const LENT_NUMBERS: usize = 512;

const NUMBER: u32 = 0xaaaa_aaaa;

// The longest buffer that is lent to write, in bytes, and what it holds before.
const LENT_BYTES: usize = 8_192;

const BYTE: u8 = 0xaa;

// Each of these answers whether the script goes on: it ends where a call lends more than it may, or its book is cut short.

// The book is read into the lent buffer first.
fn load<R: Read, W: Write>(
    input: &mut R,
    out: &mut W,
    desk: &mut Desk,
    call: Load,
) -> io::Result<bool>
    requires { SoundDesk desk.old }
    ensures { SoundDesk desk.new }
{
    if BOOK < call.length {
        return Ok(false);
    }
    let mut bytes = [0u8; BOOK];
    let book = &mut bytes[..call.length];
    if read_full(input, book)? < call.length {
        return Ok(false);
    }
    answers::done(out, "load", desk.load(call.place, book, call.rater))?;
    Ok(true)
}

fn pool<W: Write>(out: &mut W, desk: &Desk, place: u32, length: usize) -> io::Result<bool>
    requires { SoundDesk desk.now }
{
    if LENT_NUMBERS < length {
        return Ok(false);
    }
    let mut numbers = [NUMBER; LENT_NUMBERS];
    let lent = &mut numbers[..length];
    let pooled = desk.pool(place, lent);
    answers::pool(out, pooled, lent)?;
    Ok(true)
}

// The book is read first, as for load.
fn shortlist<R: Read, W: Write>(
    input: &mut R,
    out: &mut W,
    length: usize,
    book_length: usize,
) -> io::Result<bool> {
    if LENT_NUMBERS < length || BOOK < book_length {
        return Ok(false);
    }
    let mut numbers = [NUMBER; LENT_NUMBERS];
    let lent = &mut numbers[..length];
    let mut bytes = [0u8; BOOK];
    let book = &mut bytes[..book_length];
    if read_full(input, book)? < book_length {
        return Ok(false);
    }
    let listed = desk::shortlist(book, lent);
    answers::shortlist(out, listed, lent)?;
    Ok(true)
}

fn write<W: Write>(out: &mut W, desk: &Desk, length: usize) -> io::Result<bool>
    requires { SoundDesk desk.now }
{
    if LENT_BYTES < length {
        return Ok(false);
    }
    let mut bytes = [BYTE; LENT_BYTES];
    let lent = &mut bytes[..length];
    let written = desk.write(lent);
    answers::write(out, written, lent)?;
    Ok(true)
}

fn spread<W: Write>(out: &mut W, desk: &Desk, place: u32) -> io::Result<()>
    requires { SoundDesk desk.now }
{
    answers::spread(out, desk.spread(place))
}

// Books an event, which has a call of its own.
fn book<W: Write>(
    out: &mut W,
    desk: &mut Desk,
    event: Event,
    place: u32,
    grade: u32,
) -> io::Result<()>
    requires { SoundDesk desk.old }
    ensures { SoundDesk desk.new }
{
    let (call, booked) = match event {
        Event::SurvivorEnters => ("survivor_enters", desk.survivor_enters(place, grade)),
        Event::SurvivorLeaves => ("survivor_leaves", desk.survivor_leaves(place, grade)),
        Event::SurvivorDefaults => ("survivor_defaults", desk.survivor_defaults(place, grade)),
        Event::DefaultedRemoved => ("defaulted_removed", desk.defaulted_removed(place, grade)),
    };
    answers::done(out, call, booked)
}

// Makes a call, and prints its answer.
pub fn run<R: Read, W: Write>(
    input: &mut R,
    out: &mut W,
    desk: &mut Desk,
    call: Call,
) -> io::Result<bool>
    requires { SoundDesk desk.old }
    ensures { SoundDesk desk.new }
{
    match call {
        Call::Load(l) => return load(input, out, desk, l),
        Call::Pool { place, length } => return pool(out, desk, place, length),
        Call::Write { length } => return write(out, desk, length),
        Call::Shortlist {
            length,
            book_length,
        } => return shortlist(input, out, length, book_length),
        Call::Clear { place } => answers::done(out, "clear", desk.clear(place))?,
        Call::Book {
            event,
            place,
            grade,
        } => book(out, desk, event, place, grade)?,
        Call::Cheapest { place, u, v } => answers::cheapest(out, desk.cheapest(place, u, v))?,
        Call::Compare => answers::compare(out, "compare", desk.compare())?,
        Call::CompareShares => answers::compare(out, "compare_shares", desk.compare_shares())?,
        Call::Measures { place } => answers::measures(out, desk.measures(place))?,
        Call::Brier { place } => answers::brier(out, desk.brier(place))?,
        Call::Spread { place } => spread(out, desk, place)?,
    }
    Ok(true)
}
