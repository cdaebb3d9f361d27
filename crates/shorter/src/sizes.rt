// How large the cut and the table are.

ghost use Rattle.std.specs.Prelude.{◌≤◌};

// Into how many runs how many grades are cut.
#[derive(Clone, Copy)]
pub struct Size {
    pub runs: usize,
    pub grades: usize,
    ghost some: { 1 ≤ runs },
    ghost within: { runs ≤ grades },
    ghost few: { grades ≤ 40 },
}
