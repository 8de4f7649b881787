// Different numbers by rising number, at the start of a lent run. Nothing is assumed of the numbers
// that are there: what comes of them is by the definition in either case.
ghost use Rattle.std.specs.Prelude.{◌≡◌, ◌≤◌, ◌<◌, length, take};
ghost use Rattle.base.specs.Rising.{inserted};
ghost use Rattle.base.specs.promises.Writing.{Wrote};
ghost use Rattle.numbers.specs.promises.Inserting.{Placed, with_at};

// Puts x into the first `count` numbers, unless it is there, and answers how many they are then.
pub fn insert(out: &mut [u64], count: usize, x: u64) -> usize
    requires { count < length out.old }
    ensures { Wrote (inserted x (take count out.old)) result out.old out.new }
{
    let at = place(&out[0..count], x);
    if at < count {
        if out[at] == x {
            return count;
        }
    }
    put_at(out, at, count, x);
    count + 1
}

// The place of the first number that is not below x.
fn place(xs: &[u64], x: u64) -> usize
    ensures { Placed x xs.now result }
{
    xs.iter().position(|y| x <= *y).unwrap_or(xs.len())
}

// Puts x at `at`, and moves the numbers from there up to `count` one place further.
fn put_at(out: &mut [u64], at: usize, count: usize, x: u64)
    requires { (at ≤ count) × (count < length out.old) }
    ensures { out.new ≡ with_at at count x out.old }
{
    out.copy_within(at..count, at + 1);
    out[at] = x;
}
