//! How many generations a pedigree has.

ghost use Rattle.std.specs.Prelude.{◌≡◌, ◌≤◌, MatchOption};

/// How many generations a pedigree has: 1 to 12.
#[derive(Clone, Copy, Debug, PartialEq, Eq)]
pub struct Generations {
    pub count: u32,
    ghost in_range: { (1 ≤ count) × (count ≤ 12) },
}

impl Generations {
    /// That many generations. `None`: it is out of range.
    pub fn new(count: u32) -> Option<Generations>
        ensures { MatchOption result (¬ ((1 ≤ count) × (count ≤ 12))) (λ g. g.count ≡ count) }
    {
        if 1 <= count && count <= 12 {
            Some(Generations { count })
        } else {
            None
        }
    }
}
