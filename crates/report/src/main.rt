// The printing program: the pooled grades and the Gini of rater 1 of the book on standard input. Where a call that prints fails, part of its text
// may be printed.
#![tactic(auto)]

ghost use Rattle.std.specs.Prelude.{◌≤◌};
ghost use Rattle.desk.specs.Desk.{SoundDesk};

use desk::Desk;
use measures::SignedFraction;
use pooling::NUMBERS;
use print::{number, signed, text};
use refusals::Refusal;
use std::io;
use std::io::{BufWriter, Read, Write};
use table::{GRADES, Obligors, obligors_at};

// The longest book that it takes, in bytes.
const INPUT: usize = 8_192;

// Text goes out by `print`, whose contracts say which bytes are written.
fn labelled<W: Write>(out: &mut W, label: &[u8], n: u64) -> io::Result<()> {
    text(out, label)?;
    number(out, n)
}

fn refused<W: Write>(out: &mut W, refusal: Refusal) -> io::Result<()> {
    labelled(out, b"refused ", refusal.number() as u64)?;
    text(out, b"\n")
}

fn grade<W: Write>(
    out: &mut W,
    g: usize,
    defaults: u32,
    obligors: Obligors,
    band: u32,
) -> io::Result<()> {
    number(out, g as u64)?;
    labelled(out, b" ", defaults as u64)?;
    labelled(out, b" ", obligors.0 as u64)?;
    labelled(out, b" ", band as u64)?;
    text(out, b"\n")
}

// A line for each grade, best first.
fn grades<W: Write>(out: &mut W, pooled: [u32; NUMBERS * GRADES], count: usize) -> io::Result<()>
    requires { count ≤ 40 }
{
    for i in 0..count {
        grade(
            out,
            i + 1,
            pooled[NUMBERS * i],
            obligors_at(&pooled, NUMBERS * i + 1),
            pooled[NUMBERS * i + 2],
        )?;
    }
    Ok(())
}

fn fraction<W: Write>(out: &mut W, f: SignedFraction) -> io::Result<()> {
    signed(out, f.numerator)?;
    labelled(out, b" ", f.denominator)?;
    text(out, b"\n")
}

fn gini<W: Write>(out: &mut W, desk: &Desk) -> io::Result<()>
    requires { SoundDesk desk.now }
{
    text(out, b"gini ")?;
    match desk.measures(1) {
        Ok(m) => fraction(out, m.gini),
        Err(refusal) => refused(out, refusal),
    }
}

// The lines of a desk whose place 1 is loaded.
fn loaded<W: Write>(out: &mut W, desk: &Desk) -> io::Result<()>
    requires { SoundDesk desk.now }
{
    let mut pooled = [0u32; NUMBERS * GRADES];
    match desk.pool(1, &mut pooled) {
        Ok(()) => {
            grades(out, pooled, desk.first.place.grades)?;
            gini(out, desk)
        }
        Err(refusal) => refused(out, refusal),
    }
}

fn report<W: Write>(out: &mut W, book: &[u8]) -> io::Result<()> {
    let mut desk = Desk::empty();
    match desk.load(1, book, 1) {
        Ok(()) => loaded(out, &desk),
        Err(refusal) => refused(out, refusal),
    }
}

fn main(rt: HostRuntime) -> io::Result<()> {
    let mut out = BufWriter::new(rt.alloc(), rt.stdout())?;
    let mut input = Vec::new(rt.alloc());
    let n = rt.stdin().take(INPUT as u64 + 1).read_to_end(&mut input)?;
    if INPUT < n {
        refused(&mut out, Refusal::BookLength)?;
    } else {
        report(&mut out, &input)?;
    }
    out.flush()
}
