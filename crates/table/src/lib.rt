// A grade table in a place of the desk, its counts and its totals.
#![tactic(auto)]

ghost use Rattle.std.specs.Prelude.{◌+◌, ◌-◌, ◌≤◌, ◌<◌, ◌≡◌, length, get_or};
ghost use Rattle.std.proofs.Math.IntN.{sub_ℕ};
ghost use Rattle.std.proofs.Math.Seq.{paste};
ghost use Rattle.table.specs.Table.{obligors_in};
ghost use Rattle.table.specs.Place.{fresh, SoundPlace};
ghost use Rattle.table.specs.Words.{place_size, words_of, column_in, place_in, table_in, HoldsTable};
ghost use Rattle.table.specs.Counts.{largest, capped, totals_of_lem};

// The most grades of a table.
pub const GRADES: usize = 40;

// The most obligors of a table.
pub const OBLIGORS: u32 = 1_000_000;

// The highest announced rate: all of a million.
pub const PPM: u32 = 1_000_000;

// A number of obligors. No sum joins it with survivors: the types differ, and `with_defaults` is the one way across.
#[derive(Clone, Copy)]
pub struct Obligors(pub u32);

// A number of obligors that did not default.
#[derive(Clone, Copy)]
pub struct Survivors(pub u32);

impl Obligors {
    pub fn plus(self, more: Obligors) -> Obligors
        requires { self.0 + more.0 ≤ largest }
        ensures { result.0 ≡ self.0 + more.0 }
    {
        Obligors(self.0 + more.0)
    }

    // Those who are left without the defaults.
    pub fn survivors(self, defaults: u32) -> Survivors
        requires { defaults ≤ self.0 }
        ensures { result.0 ≡ self.0 - defaults }
    {
        Survivors(self.0 - defaults)
    }
}

impl Survivors {
    pub fn plus(self, more: Survivors) -> Survivors
        requires { self.0 + more.0 ≤ largest }
        ensures { result.0 ≡ self.0 + more.0 }
    {
        Survivors(self.0 + more.0)
    }

    // The conversion: survivors and defaults together are the obligors. Where a u32 cannot hold them, the largest one.
    pub fn with_defaults(self, defaults: u32) -> Obligors
        ensures { result.0 ≡ capped (self.0 + defaults) }
    {
        Obligors(self.0.saturating_add(defaults))
    }
}

// D, S and N of a table.
#[derive(Clone, Copy)]
pub struct Totals {
    pub defaults: u32,
    pub survivors: Survivors,
    pub obligors: Obligors,
}

// A place of the desk (document 01's term): room for one table. Grade i, the best being 0, stands at index i of each array.
#[derive(Clone, Copy)]
pub struct Place {
    pub obligors: [u32; GRADES],
    pub defaults: [u32; GRADES],
    // The announced default rates (document 01's term) in ppm: those that the rater published beforehand.
    pub announced: [u32; GRADES],
    pub grades: usize,
    pub loaded: bool,
}

impl Place {
    // A place as it is on a fresh desk.
    pub fn empty() -> Place
        ensures { result ≡ fresh }
    {
        Place {
            obligors: [0; GRADES],
            defaults: [0; GRADES],
            announced: [0; GRADES],
            grades: 0,
            loaded: false,
        }
    }
}

// A place as words, the numbers that a caller lends for it: obligors from 0 on, then the columns from DEFAULTS and from ANNOUNCED on, the grade
// count, and at LOADED 1 where it is loaded.
pub const DEFAULTS: usize = 40;

pub const ANNOUNCED: usize = 80;

pub const GRADE_COUNT: usize = 120;

pub const LOADED: usize = 121;

pub const PLACE: usize = 122;

// A count of obligors out of lent words. A count becomes one of its kind here and in `survivors_at`, where the words are lent, and nowhere else.
pub fn obligors_at(words: &[u32], at: usize) -> Obligors
    requires { at < length words.now }
    ensures { result.0 ≡ get_or words.now at 0 }
{
    Obligors(words[at])
}

// A count of survivors out of lent words.
pub fn survivors_at(words: &[u32], at: usize) -> Survivors
    requires { at < length words.now }
    ensures { result.0 ≡ get_or words.now at 0 }
{
    Survivors(words[at])
}

// The difference of two sums, signed.
pub fn difference(a: u64, b: u64) -> i64
    requires { (a ≤ 1_000_000_000_000_000_000) × (b ≤ 1_000_000_000_000_000_000) }
    ensures { result ≡ sub_ℕ a b }
{
    (a as i64) - (b as i64)
}

// The grade count of a lent place, whatever stands behind its words.
pub fn grades_of(place: &[u32]) -> usize
    requires { place_size ≤ length place.now }
    ensures { result ≡ (place_in place.now).grades }
{
    place[GRADE_COUNT] as usize
}

// Whether a lent place is loaded, whatever stands behind its words.
pub fn is_loaded(place: &[u32]) -> bool
    requires { place_size ≤ length place.now }
    ensures { result ≡ (place_in place.now).loaded }
{
    place[LOADED] == 1
}

// Makes the words of a lent place those of an empty one.
pub fn wipe(place: &mut [u32])
    requires { length place.old ≡ place_size }
    ensures { place.new ≡ words_of fresh }
{
    place.fill(0);
}

// Stores numbers from `at` on. By a loop: by `copy_from_slice`, which calls memmove, `pool` costs more than 1.1 times the optimised version.
#[tactic(auto, using(std::proofs::lemmas::List::Edits::paste_more))]
pub fn put_numbers(words: &mut [u32], at: usize, numbers: &[u32])
    requires { at + length numbers.now ≤ length words.old }
    ensures { words.new ≡ paste words.old at numbers.now (length numbers.now) }
{
    for (i, n) in numbers.iter().enumerate() {
        words[at + i] = *n;
    }
}

// The column from `at` on.
fn column_at(words: &[u32], at: usize) -> [u32; GRADES]
    requires { at + 40 ≤ length words.now }
    ensures { result ≡ column_in words.now at }
{
    words[at..at + GRADES].try_into().unwrap()
}

impl Place {
    // The words of a place that calls left.
    pub fn words(self) -> [u32; PLACE]
        requires { SoundPlace self }
        ensures { result ≡ words_of self }
    {
        let mut words = [0u32; PLACE];
        words[..DEFAULTS].copy_from_slice(&self.obligors);
        words[DEFAULTS..ANNOUNCED].copy_from_slice(&self.defaults);
        words[ANNOUNCED..GRADE_COUNT].copy_from_slice(&self.announced);
        words[GRADE_COUNT] = self.grades as u32;
        words[LOADED] = u32::from(self.loaded);
        words
    }

    // The place that words stand for.
    pub fn of_words(words: &[u32]) -> Place
        requires { length words.now ≡ place_size }
        ensures { result ≡ place_in words.now }
    {
        let obligors = column_at(words, 0);
        let defaults = column_at(words, DEFAULTS);
        let announced = column_at(words, ANNOUNCED);
        Place {
            obligors,
            defaults,
            announced,
            grades: words[GRADE_COUNT] as usize,
            loaded: words[LOADED] == 1,
        }
    }
}

// The grade count, by a `min` from which the compiler sees that it is at most 40: it unrolls a loop that it knows to be short.
fn few_grades_of(place: &[u32]) -> usize
    requires { HoldsTable place.now }
    ensures { result ≡ (place_in place.now).grades }
{
    grades_of(place).min(GRADES)
}

// N of the table in a lent place alone.
pub fn obligors_of(place: &[u32]) -> Obligors
    requires { HoldsTable place.now }
    ensures { result.0 ≡ obligors_in (table_in place.now) }
{
    let grades = few_grades_of(place);
    let mut all = Obligors(0);
    for i in 0..grades {
        all = all.plus(obligors_at(place, i));
    }
    all
}

// The totals of the table in a lent place.
pub fn totals_of(place: &[u32]) -> Totals
    requires { HoldsTable place.now }
    ensures { result ≡ totals_of_lem (table_in place.now) }
{
    let grades = grades_of(place);
    let mut sum = 0;
    let mut all = Obligors(0);
    for i in 0..grades {
        sum += place[DEFAULTS + i];
        all = all.plus(obligors_at(place, i));
    }
    Totals {
        defaults: sum,
        survivors: all.survivors(sum),
        obligors: all,
    }
}
