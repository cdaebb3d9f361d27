// Runs a script of calls on one desk that starts empty, and prints the answer to each on a line.
// A command is an operation number and its operands, little-endian numbers of 4 bytes; a load and a shortlist are followed by their book:
//     1 load      place, rater, length of the book in bytes (at most 65,535)
//     2 clear     place
//     3 pool      place, length of the lent buffer in numbers (at most 512), each first set to 0xaaaaaaaa
//     4 cheapest  place, u, v
//     5 compare
//     6 measures  place
//     7 brier     place
//     8 spread    place
//     9 write     length of the lent buffer in bytes (at most 8,192), each first set to 0xaa
//    10 compare_shares
//    11 shortlist  length of the lent buffer in numbers (at most 512), each first set to 0xaaaaaaaa, length of the book in bytes (at most 65,535)
//    12 survivor_enters    place, grade
//    13 survivor_leaves    place, grade
//    14 survivor_defaults  place, grade
//    15 defaulted_removed  place, grade
// Pool, shortlist and write print the whole buffer after the call, write in hexadecimal, and spread the 64 bits of each float as a number.
// An unknown operation, an operand cut short, or a length above its limit ends the script with the line `end`. The answer to a call is printed
// before the next command is read. An error of a stream ends the program: a part of the answer may be printed then, and the desk is gone.
#![tactic(auto)]

ghost use Rattle.desk.specs.Desk.{SoundDesk};

mod commands;
mod script;

use crate::script::Command;
use desk::Desk;
use std::io;
use std::io::{BufWriter, Read, Write};

// Reads and runs one command; whether the script goes on.
fn step<R: Read, W: Write>(input: &mut R, out: &mut W, desk: &mut Desk) -> io::Result<bool>
    requires { SoundDesk desk.old }
    ensures { SoundDesk desk.new }
{
    let goes_on = match script::next(input)? {
        Command::Call(call) => commands::run(input, out, desk, call)?,
        Command::Broken => false,
        Command::Finished => return Ok(false),
    };
    if goes_on {
        writeln!(out, "")?;
    } else {
        writeln!(out, "end")?;
    }
    out.flush()?;
    Ok(goes_on)
}

// A proved loop has to end, and nothing says that a script does. So the loop has a number of turns, which no script uses up.
fn main(rt: HostRuntime) -> io::Result<()> {
    let mut input = rt.stdin();
    let mut out = BufWriter::new(rt.alloc(), rt.stdout())?;
    let mut desk = Desk::empty();
    for _ in 0..u64::MAX {
        if !step(&mut input, &mut out, &mut desk)? {
            break;
        }
    }
    Ok(())
}
