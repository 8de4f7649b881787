// Searches for a number. Nothing is assumed of the numbers that are there.
ghost use Rattle.std.specs.Prelude.{ℕ, ◌≡◌, eqb};
ghost use Rattle.base.specs.Rising.{among};
ghost use Rattle.base.specs.Search.{first};

// Whether x is one of the numbers. Not by `contains` of slices: an edit turns the comparison.
pub fn contains(xs: &[u64], x: u64) -> bool
    ensures { result ≡ among x xs.now }
{
    xs.iter().any(|y| *y == x)
}

// The place of x, if it is there.
pub fn place_of(x: u64, xs: &[u64]) -> Option<usize>
    ensures { result ≡ first (λ (y : ℕ). eqb y x) 0 xs.now }
{
    xs.iter().position(|y| *y == x)
}
