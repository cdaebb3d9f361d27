// A place that keeps its pooled list beside its counts (document 02's R-8).
#![tactic(auto)]

ghost use Rattle.std.specs.Prelude.{◌≡◌, ◌++◌, length};
ghost use Rattle.table.specs.Table.{Sound};
ghost use Rattle.table.specs.Words.{place_in, table_in};
ghost use Rattle.pooling.specs.Private.{listed, spanning};
ghost use Rattle.pooling.specs.Numbers.{pooled_into};
ghost use Rattle.pooled_place.specs.PooledPlace.{fresh_pooled_place, SoundPooledPlace};
ghost use Rattle.pooled_place.specs.Words.{pooled_place_size, pooled_place_words, counts_in, list_in, pooled_place_in, HoldsPooledTable};

use pooling::{Blocks, blocks_in, blocks_of, write_blocks};
use table::{PLACE, Place, grades_of, put_numbers};

// The numbers of a pooled list: three for each of 40 grades.
pub const LIST: usize = 120;

// The words of a place with its list: those of its counts, and from PLACE on the list.
pub const POOLED_PLACE: usize = 242;

// A place of the desk: its counts and whether it is loaded, and its pooled list.
#[derive(Clone, Copy)]
pub struct PooledPlace {
    pub place: Place,
    pub pooled: [u32; LIST],
}

// The words of the counts.
pub fn counts_of(words: &[u32]) -> &[u32]
    requires { length words.now ≡ pooled_place_size }
    ensures { result.now ≡ counts_in words.now }
{
    &words[..PLACE]
}

// The words of the list.
pub fn list_of(words: &[u32]) -> &[u32]
    requires { length words.now ≡ pooled_place_size }
    ensures { result.now ≡ list_in words.now }
{
    &words[PLACE..]
}

// Makes the list anew from the counts.
pub fn pool_anew(words: &mut [u32])
    requires { (length words.old ≡ pooled_place_size) × Sound (table_in words.old) }
    ensures { let w = words.old in words.new ≡ counts_in w ++ pooled_into (table_in w) (list_in w) }
{
    let mut blocks = Blocks::none();
    blocks_of(counts_of(words), &mut blocks);
    let grades = grades_of(words);
    write_blocks(blocks.as_slice(), grades, &mut words[PLACE..]);
}

// Makes the words those of an empty place: its counts and its list are dropped.
pub fn wipe_place(words: &mut [u32])
    requires { length words.old ≡ pooled_place_size }
    ensures { words.new ≡ pooled_place_words fresh_pooled_place }
{
    words.fill(0);
}

// Makes lent blocks those of the table. Nothing is pooled: they are read from the list.
pub fn listed_blocks(words: &[u32], blocks: &mut Blocks)
    requires { HoldsPooledTable words.now }
    ensures { listed blocks.new ≡ spanning (table_in words.now) }
{
    blocks_in(list_of(words), grades_of(words), blocks)
}

impl PooledPlace {
    // A place as it is on a fresh desk.
    pub fn empty() -> PooledPlace
        ensures { result ≡ fresh_pooled_place }
    {
        PooledPlace {
            place: Place::empty(),
            pooled: [0; LIST],
        }
    }

    // The words of a place that calls left.
    pub fn words(self) -> [u32; POOLED_PLACE]
        requires { SoundPooledPlace self }
        ensures { result ≡ pooled_place_words self }
    {
        let mut words = [0u32; POOLED_PLACE];
        let place = self.place;
        let counts = place.words();
        put_numbers(&mut words, 0, &counts);
        put_numbers(&mut words, PLACE, &self.pooled);
        words
    }

    // The place that words stand for.
    pub fn of_words(words: &[u32]) -> PooledPlace
        requires { length words.now ≡ pooled_place_size }
        ensures { result ≡ pooled_place_in words.now }
    {
        let place = Place::of_words(counts_of(words));
        let mut pooled = [0u32; LIST];
        put_numbers(&mut pooled, 0, list_of(words));
        PooledPlace { place, pooled }
    }
}
