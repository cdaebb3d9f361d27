// The commands of the script, as they come in.
ghost use Rattle.std.specs.Prelude.{◌+◌, ◌<◌, ◌≤◌, length, IfOk};

use events::Event;
use std::io;
use std::io::Read;

// The operands of a load.
#[derive(Clone, Copy)]
pub struct Load {
    pub place: u32,
    pub rater: u32,
    // Of the book, in bytes.
    pub length: usize,
}

// A call with its operands, as `main` describes them.
#[derive(Clone, Copy)]
pub enum Call {
    Load(Load),
    Clear {
        place: u32,
    },
    Pool {
        place: u32,
        length: usize,
    },
    Cheapest {
        place: u32,
        u: u32,
        v: u32,
    },
    Compare,
    Measures {
        place: u32,
    },
    Brier {
        place: u32,
    },
    Spread {
        place: u32,
    },
    Write {
        length: usize,
    },
    CompareShares,
    Shortlist {
        length: usize,
        book_length: usize,
    },
    Book {
        event: Event,
        place: u32,
        grade: u32,
    },
}

// What stands next in the script. It is one of three things, and so no `Option`.
#[derive(Clone, Copy)]
pub enum Command {
    Call(Call),
    // There is no such operation, or it is cut short.
    Broken,
    // The input has ended before it.
    Finished,
}

// The bytes of the most operands.
const OPERANDS: usize = 12;

// The number in the 4 bytes from `at` on.
fn number_at(b: &[u8; OPERANDS], at: usize) -> u32
    requires { at + 4 ≤ 12 }
{
    u32::from_le_bytes([b[at], b[at + 1], b[at + 2], b[at + 3]])
}

// How many bytes the operands of an operation take.
fn operands_size(operation: u32) -> usize
    ensures { result ≤ 12 }
{
    match operation {
        1 | 4 => OPERANDS,
        3 | 11..=15 => 8,
        2 | 6..=9 => 4,
        _ => 0,
    }
}

// The operands as they stand, 0 for those that an operation does not have.
#[derive(Clone, Copy)]
struct Operands {
    first: u32,
    second: u32,
    third: u32,
}

// The call of an operation that lends a book or a buffer.
fn lending(operation: u32, operands: Operands) -> Option<Call> {
    match operation {
        1 => Some(Call::Load(Load {
            place: operands.first,
            rater: operands.second,
            length: operands.third as usize,
        })),
        3 => Some(Call::Pool {
            place: operands.first,
            length: operands.second as usize,
        }),
        9 => Some(Call::Write {
            length: operands.first as usize,
        }),
        11 => Some(Call::Shortlist {
            length: operands.first as usize,
            book_length: operands.second as usize,
        }),
        _ => None,
    }
}

// What an operation books.
fn event_of(operation: u32) -> Option<Event> {
    match operation {
        12 => Some(Event::SurvivorEnters),
        13 => Some(Event::SurvivorLeaves),
        14 => Some(Event::SurvivorDefaults),
        15 => Some(Event::DefaultedRemoved),
        _ => None,
    }
}

// The call of an operation, where there is one.
fn call_of(operation: u32, operands: Operands) -> Option<Call> {
    let place = operands.first;
    if let Some(event) = event_of(operation) {
        return Some(Call::Book {
            event,
            place,
            grade: operands.second,
        });
    }
    match operation {
        2 => Some(Call::Clear { place }),
        4 => Some(Call::Cheapest {
            place,
            u: operands.second,
            v: operands.third,
        }),
        5 => Some(Call::Compare),
        6 => Some(Call::Measures { place }),
        7 => Some(Call::Brier { place }),
        8 => Some(Call::Spread { place }),
        10 => Some(Call::CompareShares),
        _ => lending(operation, operands),
    }
}

// Reads until the buffer is full or the input ends: how many bytes stand at the start of the buffer. A `while`, since a read says where the next one
// begins; std's `read_exact` does not say how many bytes came.
pub fn read_full<R: Read>(input: &mut R, buffer: &mut [u8]) -> io::Result<usize>
    ensures { IfOk result (λ n. n ≤ length buffer.new) }
{
    let mut done: usize = 0;
    while done < buffer.len() {
        let got = input.read(&mut buffer[done..])?;
        if got == 0 {
            break;
        }
        done += got;
    }
    Ok(done)
}

pub fn next<R: Read>(input: &mut R) -> io::Result<Command> {
    let mut bytes = [0u8; OPERANDS];
    let got = read_full(input, &mut bytes[..4])?;
    if got == 0 {
        return Ok(Command::Finished);
    }
    if got < 4 {
        return Ok(Command::Broken);
    }
    let operation = number_at(&bytes, 0);
    bytes = [0u8; OPERANDS];
    let size = operands_size(operation);
    if read_full(input, &mut bytes[..size])? < size {
        return Ok(Command::Broken);
    }
    let operands = Operands {
        first: number_at(&bytes, 0),
        second: number_at(&bytes, 4),
        third: number_at(&bytes, 8),
    };
    Ok(match call_of(operation, operands) {
        Some(call) => Command::Call(call),
        None => Command::Broken,
    })
}
