// The pivotal test: of one place in a lent run of amounts, one per supplier, against a need; and the same
// test fed one amount a call, which the test of a run is made of. Assumes nothing of the amounts, the
// place and the need: what is outside the limits is refused.
#![tactic(auto)]

ghost use Rattle.std.specs.Prelude.{◌≡◌};
ghost use Rattle.pivotal.specs.Test.{test_outcome, tested};

mod feeding;

pub use feeding::{FedTest, Largest};

// Whether a supplier passes the test or fails it.
#[derive(Clone, Copy)]
pub enum Finding {
    Passes,
    Fails,
}

// What the test finds of amounts, a place and a need that are within the limits: what is left, and whether the
// supplier passes.
#[derive(Clone, Copy)]
pub struct Tested {
    pub left: u64,
    pub found: Finding,
}

// The test of the supplier at `place`; nothing where it is refused.
pub fn test(amounts: &[u64], place: usize, need: u64) -> Option<Tested>
    ensures { test_outcome result ≡ tested amounts.now place need }
{
    let mut fed = FedTest::begin(place as u64, need);
    for amount in amounts {
        fed = fed.feed(*amount);
    }
    fed.ask()
}
