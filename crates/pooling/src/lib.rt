// Pooling: the blocks of a table, and the three numbers that stand for each of its grades.
#![tactic(auto)]

ghost use Rattle.std.specs.Prelude.{◌+◌, ◌-◌, ◌*◌, ◌≤◌, ◌<◌, ◌≡◌, ◌∷◌, ◌++◌, length, take, drop};
ghost use Rattle.table.specs.Words.{table_in, HoldsTable};
ghost use Rattle.table.specs.Counts.{largest};
ghost use Rattle.pooling.specs.Pool.{join, rate_below, front, Rising};
ghost use Rattle.pooling.specs.Private.{sum_of, listed, spanning, shows, runs_in};
ghost use Rattle.pooling.specs.Band.{band_of};
ghost use Rattle.pooling.specs.Limits.{listed_limits};
ghost use Rattle.pooling.specs.Numbers.{grades_of_lem, numbers_of_lem};
ghost use Rattle.pooling.specs.Claims.{Claims};

mod blocks;

pub use blocks::Blocks;
use table::{DEFAULTS, Obligors, PPM, grades_of, obligors_at};

// A run of neighbouring grades: how many, their obligors and their defaults. Where `blocks_of` makes it, all grades that have its numbers are
// counted, the empty ones too.
#[derive(Clone, Copy)]
pub struct Block {
    pub grades: u32,
    pub obligors: Obligors,
    pub defaults: u32,
}

// The limits of bands 0 to 13, in ppm, one a line for whoever checks them. A test holds docs/BANDS.md to these lines.
const BAND_LIMITS: [u32; 14] = [
    100, 200, 400, 800, 1_600, 3_200, 6_400, 12_800, 25_600, 51_200, 102_400, 204_800, 409_600,
    819_200,
];

impl Block {
    // This block and the next as one.
    fn joined(self, next: Block) -> Block
        requires grades { self.grades + next.grades ≤ largest }
        requires obligors { self.obligors.0 + next.obligors.0 ≤ largest }
        requires defaults { self.defaults + next.defaults ≤ largest }
        ensures { result ≡ join self next }
    {
        Block {
            grades: self.grades + next.grades,
            obligors: self.obligors.plus(next.obligors),
            defaults: self.defaults + next.defaults,
        }
    }

    // Whether the default rate is below that of the next block.
    fn is_below(self, next: Block) -> bool
        ensures { result ≡ rate_below self next }
    {
        (self.defaults as u64) * (next.obligors.0 as u64)
            < (next.defaults as u64) * (self.obligors.0 as u64)
    }

    // Whether it has these counts.
    pub fn shows(self, defaults: u32, obligors: Obligors) -> bool
        ensures { result ≡ shows self defaults obligors.0 }
    {
        self.defaults == defaults && self.obligors.0 == obligors.0
    }

    // The band of the default rate, which is at most `most`: searched downwards from there in the lent list of limits. Rate and limits are
    // taken times the obligors, so that nothing is rounded.
    fn band(self, limits: &[u32], most: usize) -> usize
        requires limits { limits.now ≡ listed_limits }
        requires most { (band_of self ≤ most) × (most ≤ 14) }
        ensures { result ≡ band_of self }
    {
        let rate = (self.defaults as u64) * (PPM as u64);
        for b in (0..most).rev() {
            if (limits[b] as u64) * (self.obligors.0 as u64) < rate {
                return b + 1;
            }
        }
        0
    }
}

// Makes lent blocks those of the table in a lent place: blocks that are returned would be copied. From the worst grade to the best, an empty grade
// only adds to those that the next better occupied one stands for; what is left over at the best end is counted to the first block.
pub fn blocks_of(place: &[u32], blocks: &mut Blocks)
    requires { HoldsTable place.now }
    ensures { listed blocks.new ≡ spanning (table_in place.now) }
{
    blocks.clear();
    let mut grades: u32 = 1;
    for i in (0..grades_of(place)).rev() {
        let obligors = obligors_at(place, i);
        if obligors.0 == 0 {
            grades += 1;
        } else {
            blocks.put_before(Block {
                grades,
                obligors,
                defaults: place[DEFAULTS + i],
            });
            grades = 1;
        }
    }
    blocks.lengthen(grades - 1);
}

// The numbers that pool writes for each grade: its block's defaults, obligors and band.
pub const NUMBERS: usize = 3;

// Writes the three numbers of a block, once for each of its grades, so that they end before index `end`. They are stored by index: what is written
// through `chunks_exact_mut` no proof knows of.
fn write_block(x: &Block, band: u32, end: usize, out: &mut [u32])
    requires band { band ≡ band_of x.now }
    requires room { (3 * x.now.grades ≤ end) × (end ≤ length out.old) }
    ensures { out.new ≡ take (end - 3 * x.now.grades) out.old ++ grades_of_lem x.now x.now.grades (drop end out.old) }
{
    let mut at = end;
    for _ in 0..x.grades {
        at -= NUMBERS;
        out[at + 2] = band;
        out[at + 1] = x.obligors.0;
        out[at] = x.defaults;
    }
}

// Writes the numbers of blocks, which have so many grades together: for each grade its block's defaults, obligors and band. The further numbers
// of `out` are kept. From the worst block to the best the rates fall, so no band is above that of the block before.
pub fn write_blocks(blocks: &[Block], grades: usize, out: &mut [u32])
    requires rising { Rising blocks.now }
    requires room { ((sum_of blocks.now).grades ≡ grades) × (grades ≤ 40) × (3 * grades ≤ length out.old) }
    ensures { out.new ≡ numbers_of_lem blocks.now (drop (3 * grades) out.old) }
{
    let limits = BAND_LIMITS; // lent, since a search that names the constant stores it at every step
    let mut end = NUMBERS * grades;
    let mut band: usize = 14;
    for x in blocks.iter().rev() {
        band = x.band(&limits, band);
        write_block(x, band as u32, end, &mut *out);
        end -= NUMBERS * (x.grades as usize);
    }
}

// Makes lent blocks those whose numbers these are, as `write_blocks` wrote them for so many grades. From the worst grade to the best, a grade with
// the numbers of the one before is of the same block.
pub fn blocks_in(numbers: &[u32], grades: usize, blocks: &mut Blocks)
    requires { (1 ≤ grades) × (grades ≤ 40) × (3 * grades ≤ length numbers.now) }
    ensures { listed blocks.new ≡ runs_in grades numbers.now }
{
    blocks.clear();
    let worst = NUMBERS * (grades - 1);
    let mut x = Block {
        grades: 1,
        obligors: obligors_at(numbers, worst + 1),
        defaults: numbers[worst],
    };
    for i in (0..grades - 1).rev() {
        let at = NUMBERS * i;
        let defaults = numbers[at];
        let obligors = obligors_at(numbers, at + 1);
        if x.shows(defaults, obligors) {
            x.grades += 1;
        } else {
            blocks.push(x);
            x = Block {
                grades: 1,
                obligors,
                defaults,
            };
        }
    }
    blocks.push(x);
}

// What is claimed of pooling: the function does nothing, its contract is all claims of this crate.
pub fn claims()
    ensures { Claims }
{}
