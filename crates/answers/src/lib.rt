// The line of each answer, without its line feed, written to a stream. Where a call fails, part of the line may be written.
#![tactic(auto)]

ghost use Rattle.std.specs.Prelude.{IfOk};
ghost use Rattle.answers.specs.Answers.{Numbers};

use cutoff::{CheapestCutoff, Verdict};
use measures::{Measures, UnsignedFraction};
use refusals::Refusal;
use spread::Spread;
use std::io;
use std::io::Write;

fn refused<W: Write>(out: &mut W, call: &str, refusal: Refusal) -> io::Result<()> {
    write!(out, "{call} refused {}", refusal.number())
}

// Of a call that answers nothing further.
pub fn done<W: Write>(out: &mut W, call: &str, answer: Result<(), Refusal>) -> io::Result<()> {
    match answer {
        Ok(()) => write!(out, "{call} ok"),
        Err(refusal) => refused(out, call, refusal),
    }
}

// Of a call that answers how much it wrote.
fn wrote<W: Write>(out: &mut W, call: &str, answer: Result<usize, Refusal>) -> io::Result<()> {
    match answer {
        Ok(count) => write!(out, "{call} ok {count}"),
        Err(refusal) => refused(out, call, refusal),
    }
}

// The whole of a lent buffer.
fn numbers<W: Write>(out: &mut W, lent: &[u32]) -> io::Result<()> {
    for n in lent {
        write!(out, " {n}")?;
    }
    Ok(())
}

pub fn pool<W: Write>(out: &mut W, answer: Result<(), Refusal>, lent: &[u32]) -> io::Result<()> {
    done(out, "pool", answer)?;
    numbers(out, lent)
}

pub fn shortlist<W: Write>(
    out: &mut W,
    answer: Result<usize, Refusal>,
    lent: &[u32],
) -> io::Result<()> {
    wrote(out, "shortlist", answer)?;
    numbers(out, lent)
}

pub fn cheapest<W: Write>(out: &mut W, answer: Result<CheapestCutoff, Refusal>) -> io::Result<()> {
    match answer {
        Ok(c) => write!(out, "cheapest ok {} {}", c.cutoff, c.cost),
        Err(refusal) => refused(out, "cheapest", refusal),
    }
}

fn verdict<W: Write>(out: &mut W, call: &str, verdict: Verdict) -> io::Result<()> {
    match verdict {
        Verdict::Equal => write!(out, "{call} ok equal"),
        Verdict::First(p) => write!(out, "{call} ok first {} {}", p.u, p.v),
        Verdict::Second(p) => write!(out, "{call} ok second {} {}", p.u, p.v),
        Verdict::Crossing(p, q) => write!(
            out,
            "{call} ok crossing {} {} {} {}",
            p.u, p.v, q.u, q.v
        ),
    }
}

// Of either comparison.
pub fn compare<W: Write>(
    out: &mut W,
    call: &str,
    answer: Result<Verdict, Refusal>,
) -> io::Result<()> {
    match answer {
        Ok(v) => verdict(out, call, v),
        Err(refusal) => refused(out, call, refusal),
    }
}

fn four_measures<W: Write>(out: &mut W, m: Measures) -> io::Result<()> {
    write!(out, "measures ok {} {}", m.defaults, m.survivors.0)?;
    write!(out, " {} {}", m.gini.numerator, m.gini.denominator)?;
    write!(out, " {} {}", m.roc.numerator, m.roc.denominator)?;
    write!(out, " {} {}", m.cap.numerator, m.cap.denominator)?;
    write!(out, " {} {}", m.pietra.numerator, m.pietra.denominator)?;
    write!(out, " {}", m.cutoff)
}

pub fn measures<W: Write>(out: &mut W, answer: Result<Measures, Refusal>) -> io::Result<()> {
    match answer {
        Ok(m) => four_measures(out, m),
        Err(refusal) => refused(out, "measures", refusal),
    }
}

pub fn brier<W: Write>(out: &mut W, answer: Result<UnsignedFraction, Refusal>) -> io::Result<()> {
    match answer {
        Ok(f) => write!(out, "brier ok {} {}", f.numerator, f.denominator),
        Err(refusal) => refused(out, "brier", refusal),
    }
}

// The 64 bits of a float have a number where it is one.
pub fn spread<W: Write>(out: &mut W, answer: Result<Spread, Refusal>) -> io::Result<()>
    requires { IfOk answer Numbers }
{
    match answer {
        Ok(s) => {
            let total = f64::to_bits(s.total);
            let residual = f64::to_bits(s.residual);
            write!(out, "spread ok {total} {residual}")
        }
        Err(refusal) => refused(out, "spread", refusal),
    }
}

// Two hexadecimal digits a byte, all behind one space; no space where there is no byte.
pub fn write<W: Write>(out: &mut W, answer: Result<usize, Refusal>, lent: &[u8]) -> io::Result<()> {
    wrote(out, "write", answer)?;
    if !lent.is_empty() {
        write!(out, " ")?;
    }
    for b in lent {
        write!(out, "{b:02x}")?;
    }
    Ok(())
}
