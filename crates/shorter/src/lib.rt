// A shorter scale (document 02's R-9): neighbouring grades merged into runs, so that C - X of the coarse scale is largest.
#![tactic(auto)]

ghost use Rattle.std.specs.Prelude.{ℕ, suc, ◌+◌, ◌-◌, ◌≤◌, ◌<◌, ◌≡◌, ◌++◌, length, take, drop};
ghost use Rattle.table.specs.Words.{table_in, HoldsTable};
ghost use Rattle.shorter.specs.Cut.{coarse_difference, ShortenedInto};
ghost use Rattle.shorter.specs.Private.{SumsOf, Falling, Priced, by, best_end_lem, Values, Wide, ChoicesOf, RowEnd, Leads, ends_in};
ghost use Rattle.shorter.specs.Claims.{Claims};

mod sizes;

use sizes::Size;
use table::{DEFAULTS, GRADES, Survivors, difference, grades_of, obligors_at};

// One for each grade, and one behind the last.
pub const POINTS: usize = GRADES + 1;

// The survivors of a grade and all worse ones, and their defaults: of the best grade they are S and D.
#[derive(Clone, Copy)]
pub struct Sums {
    pub survivors: u64,
    pub defaults: u64,
}

// A row for each number of runs, with a number for each grade.
type Choices = [[u8; GRADES]; GRADES];

// Where a run ends, and what it adds with those behind it.
#[derive(Clone, Copy)]
struct BestEnd {
    value: u64,
    end: usize,
}

// The sums of the table in a lent place, from the worst grade to the best.
#[tactic(auto, using(table::proofs::Words::few_in, table::proofs::Words::turn))]
pub fn add_up(place: &[u32], sums: &mut [Sums; POINTS])
    requires { HoldsTable place.now }
    ensures { SumsOf (table_in place.now) sums.new }
{
    let grades = grades_of(place);
    let mut survivors = Survivors(0);
    let mut defaults: u32 = 0;
    sums[grades] = Sums {
        survivors: 0,
        defaults: 0,
    };
    for i in (0..grades).rev() {
        let d = place[DEFAULTS + i];
        survivors = survivors.plus(obligors_at(place, i).survivors(d));
        defaults += d;
        sums[i] = Sums {
            survivors: survivors.0 as u64,
            defaults: defaults as u64,
        };
    }
}

// What the run from grade i to before grade e adds, with those behind it.
fn added(sums: &[Sums; POINTS], values: &[u64; POINTS], i: usize, e: usize) -> u64
    requires { (i ≤ 40) × (e ≤ 40) × Priced sums.now values.now i e }
    ensures { result ≡ by sums.now values.now i e }
{
    (sums[i].survivors - sums[e].survivors) * (sums[i].defaults + sums[e].defaults) + values[e]
}

// The best end of a run that starts with grade i, of those from the next grade on up to `last`.
fn best_end(sums: &[Sums; POINTS], values: &[u64; POINTS], i: usize, last: usize) -> BestEnd
    requires within { (i < last) × (last ≤ 40) }
    requires priced { (e : ℕ) → i < e → e ≤ last → Priced sums.now values.now i e }
    ensures { result ≡ best_end_lem (by sums.now values.now i) i last }
{
    let first = i + 1;
    let mut end = first;
    let mut value = added(sums, values, i, first);
    for e in first + 1..last + 1 {
        let here = added(sums, values, i, e);
        if value < here {
            value = here;
            end = e;
        }
    }
    BestEnd { value, end }
}

// Row 0: what a run adds that goes to the last grade.
fn last_runs(sums: &[Sums; POINTS], values: &mut [u64; POINTS], size: Size)
    requires { Falling sums.now size.grades }
    ensures { Values sums.now size 0 values.new }
{
    for i in size.runs - 1..size.grades {
        values[i] = sums[i].survivors * sums[i].defaults;
    }
}

// The grades that row j + 1 needs end before this one. In the last row that is the best grade alone.
fn row_end(j: usize, size: Size) -> usize
    requires { j + 1 < size.runs }
    ensures { RowEnd size j result }
{
    if j + 2 < size.runs {
        size.grades - 1 - j
    } else {
        1
    }
}

// From row j to row j + 1, in place: a grade's value needs only those of worse grades.
fn next_row(
    sums: &[Sums; POINTS],
    values: &mut [u64; POINTS],
    choices: &mut Choices,
    j: usize,
    size: Size,
)
    requires row { j + 1 < size.runs }
    requires sums { Falling sums.now size.grades }
    requires rows { Values sums.now size j values.old × ChoicesOf sums.now size j choices.old }
    ensures values { Values sums.now size (suc j) values.new }
    ensures choices { ChoicesOf sums.now size (suc j) choices.new }
{
    for i in size.runs - 2 - j..row_end(j, size) {
        let best = best_end(sums, values, i, size.grades - 1 - j);
        values[i] = best.value;
        choices[j][i] = best.end as u8;
    }
}

// All rows: the most that so many runs add, at grade 0, and the choices of each row.
fn fill_rows(sums: &[Sums; POINTS], values: &mut [u64; POINTS], choices: &mut Choices, size: Size)
    requires sums { Falling sums.now size.grades }
    requires wide { Wide choices.old }
    ensures values { Values sums.now size (size.runs - 1) values.new }
    ensures choices { ChoicesOf sums.now size (size.runs - 1) choices.new }
{
    last_runs(sums, values, size);
    for j in 0..size.runs - 1 {
        next_row(sums, values, choices, j, size);
    }
}

// Follows the choices from the first run to the last, and writes where each run ends. The further numbers of `out` are kept.
fn write_ends(choices: &Choices, size: Size, out: &mut [u32])
    requires room { size.runs ≤ length out.old }
    requires choices { Leads choices.now (size.runs - 1) 0 }
    ensures { out.new ≡ ends_in choices.now size.grades (size.runs - 1) 0 ++ drop size.runs out.old }
{
    let others = size.runs - 1;
    let mut i: usize = 0;
    for at in 0..others {
        let e = choices[others - 1 - at][i];
        out[at] = e as u32;
        i = e as usize;
    }
    out[others] = size.grades as u32;
}

// The best cut of the table in a lent place, whose sums are there, into so many runs: writes where they end, best run first, and returns C - X of
// the coarse scale. The further numbers of `out` are kept. Document 02 leaves open which of several best cuts it is, so the contract limits it.
pub fn shorten(place: &[u32], sums: &[Sums; POINTS], runs: usize, out: &mut [u32]) -> i64
    requires place { HoldsTable place.now }
    requires sums { SumsOf (table_in place.now) sums.now }
    requires runs { (1 ≤ runs) × (runs ≤ length (table_in place.now)) × (runs ≤ length out.old) }
    ensures ends { ShortenedInto (table_in place.now) runs out.old out.new }
    ensures difference { result ≡ coarse_difference (table_in place.now) (take runs out.new) }
{
    let grades = grades_of(place);
    let size = Size { runs, grades };
    let mut values: [u64; POINTS] = [0; POINTS];
    let mut choices: Choices = [[0; GRADES]; GRADES];
    fill_rows(sums, &mut values, &mut choices, size);
    write_ends(&choices, size, out);
    difference(values[0], sums[0].defaults * sums[0].survivors)
}

// What is claimed of shorter scales: the function does nothing, its contract is all claims of this crate.
pub fn claims()
    ensures { Claims }
{}
