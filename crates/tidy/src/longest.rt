// The longest tidy files: how many bytes a buffer must have so that no tidy file finds it too short. Assumes nothing.
ghost use Rattle.std.specs.Prelude.{◌≡◌};
ghost use Rattle.tables.specs.declared.files.File.TheVariants.{Constraint, Supply, Schedules};
ghost use Rattle.tidy.specs.Longest.{longest_tidy};

pub const LONGEST_CONSTRAINT: usize = 38;

pub const LONGEST_SUPPLY: usize = 7964;

pub const LONGEST_SCHEDULES: usize = 52284;

// The same, by the definition. Three functions: that each constant is the definition's is a computation of its
// own, and one over files would have two for files that are never tidied.
pub fn longest_constraint() -> usize
    ensures { result ≡ longest_tidy Constraint }
{
    LONGEST_CONSTRAINT
}

pub fn longest_supply() -> usize
    ensures { result ≡ longest_tidy Supply }
{
    LONGEST_SUPPLY
}

pub fn longest_schedules() -> usize
    ensures { result ≡ longest_tidy Schedules }
{
    LONGEST_SCHEDULES
}
