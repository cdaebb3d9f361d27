// The blocks of a table as pooling finds them, from the worst on.

ghost use Rattle.std.specs.Prelude.{◌≤◌};

use super::Block;
use table::{GRADES, Obligors};

// The blocks of a table, best first: at most one for each grade. Pooling finds the worst first, so they fill the room from its end on.
#[derive(Clone, Copy)]
pub struct Blocks {
    items: [Block; GRADES],
    start: usize,
    pub ghost inside: { start ≤ 40 },
}

impl Blocks {
    ghost use Rattle.std.specs.Prelude.{◌<◌, ◌≤◌, ◌≡◌, ◌+◌, [], ◌∷◌, length};
    ghost use Rattle.table.specs.Counts.{largest};
    ghost use Rattle.pooling.specs.Pool.{join, front};
    ghost use Rattle.pooling.specs.Private.{listed, lengthened, Fitting, sum_of};

    // No blocks yet.
    pub fn none() -> Blocks
        ensures { listed result ≡ [] }
    {
        let empty = Block {
            grades: 0,
            obligors: Obligors(0),
            defaults: 0,
        };
        Blocks {
            items: [empty; GRADES],
            start: GRADES,
        }
    }

    // Drops all blocks.
    pub(crate) fn clear(&mut self)
        ensures { listed self.new ≡ [] }
    {
        self.start = GRADES;
    }

    // The blocks.
    pub fn as_slice(&self) -> &[Block]
        ensures { result.now ≡ listed self.now }
    {
        &self.items[self.start..]
    }

    // Puts a block before the others. The test is never met, and costs nothing: by it the compiler sees that no block is stored over `start`, which
    // it then keeps in a register.
    pub(crate) fn push(&mut self, block: Block)
        requires { length (listed self.old) < 40 }
        ensures { listed self.new ≡ block ∷ listed self.old }
    {
        let at = self.start - 1;
        if GRADES <= at {
            unreachable!()
        }
        self.items[at] = block;
        self.start = at;
    }

    // Puts a block before the others. It first takes in the block after it for as long as its rate is not below that one's: a `while`, since where
    // it ends is where the blocks then start.
    pub(crate) fn put_before(&mut self, block: Block)
        requires room { length (listed self.old) < 40 }
        requires fitting { Fitting (join block (sum_of (listed self.old))) }
        ensures { listed self.new ≡ front block (listed self.old) }
    {
        let mut b = block;
        let mut at = self.start;
        while at < GRADES {
            let next = self.items[at];
            if b.is_below(next) {
                break;
            }
            b = b.joined(next);
            at += 1;
        }
        self.start = at;
        self.push(b);
    }

    // Counts so many grades more to the first block.
    pub(crate) fn lengthen(&mut self, more: u32)
        requires some { 0 < length (listed self.old) }
        requires few { more + (sum_of (listed self.old)).grades ≤ largest }
        ensures { listed self.new ≡ lengthened more (listed self.old) }
    {
        self.items[self.start].grades += more;
    }
}
