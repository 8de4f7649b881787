// The pivotal test fed one amount a call: begun with a place and a need, given the suppliers' amounts one
// after the other, then asked. Between calls it is six plain numbers. Assumes nothing of them: one
// that was not begun and fed here answers something, and no sum of it passes 64 bits.
ghost use Rattle.std.specs.Prelude.{◌≡◌};
ghost use Rattle.pivotal.specs.Test.{finding, test_outcome, test_verdict, largest_with};
ghost use Rattle.pivotal.specs.Fed.{begun, takes as fed_takes, other as fed_other, fed, Answers};

use crate::{Finding, Tested};

// The most amounts that are tested together, the most that one may be, and the most that they come to.
const AMOUNTS: u64 = 32;

const AMOUNT: u64 = 1_000_000_000_000;

const TOTAL: u64 = AMOUNTS * AMOUNT;

// The count once amounts are outside the limits, whatever comes behind them.
const PAST: u64 = AMOUNTS + 1;

// The two largest of some amounts, 0 where fewer exist.
#[derive(Clone, Copy)]
pub struct Largest {
    pub first: u64,
    pub second: u64,
}

impl Largest {
    // The two largest with one amount more.
    fn with(self, amount: u64) -> Largest
        ensures { result ≡ largest_with self amount }
    {
        let displaced = self.first.min(amount);
        Largest {
            first: self.first.max(amount),
            second: self.second.max(displaced),
        }
    }
}

// What is kept of a test between calls: the place of the supplier tested, the need, how many amounts were
// given, the total of the others' and the two largest of these.
#[derive(Clone, Copy)]
pub struct FedTest {
    pub place: u64,
    pub need: u64,
    pub count: u64,
    pub total: u64,
    pub largest: Largest,
}

impl FedTest {
    // The test before its first amount.
    pub fn begin(place: u64, need: u64) -> FedTest
        ensures { result ≡ begun place need }
    {
        FedTest {
            place,
            need,
            count: 0,
            total: 0,
            largest: Largest {
                first: 0,
                second: 0,
            },
        }
    }

    // The test with one amount more.
    pub fn feed(self, amount: u64) -> FedTest
        ensures { result ≡ fed self amount }
    {
        let largest = self.largest;
        if !self.takes(amount) {
            return FedTest {
                place: self.place,
                need: self.need,
                count: PAST,
                total: self.total,
                largest,
            };
        }
        let count = self.count + 1;
        let other = self.other(amount);
        let total = self.total + other;
        FedTest {
            place: self.place,
            need: self.need,
            count,
            total,
            largest: largest.with(other),
        }
    }

    // What the test of the amounts given so far answers; nothing where it is refused.
    pub fn ask(self) -> Option<Tested>
        ensures { Answers self (test_outcome result) }
    {
        if AMOUNTS < self.count {
            return None;
        }
        if self.count <= self.place {
            return None;
        }
        let largest = self.largest;
        let left = self
            .total
            .saturating_sub(largest.first)
            .saturating_sub(largest.second);
        Some(Tested {
            left,
            found: found(left, self.need),
        })
    }

    // Whether one amount more is within the limits.
    fn takes(self, amount: u64) -> bool
        ensures { result ≡ fed_takes self amount }
    {
        (self.count < AMOUNTS) & (amount <= AMOUNT) & (self.total <= TOTAL)
    }

    // What the next amount is to the others: nothing where it is the own one.
    fn other(self, amount: u64) -> u64
        ensures { result ≡ fed_other self amount }
    {
        if self.count == self.place { 0 } else { amount }
    }
}

// What was found of a supplier without which `left` remains.
fn found(left: u64, need: u64) -> Finding
    ensures { finding result ≡ test_verdict left need }
{
    if left < need {
        Finding::Fails
    } else {
        Finding::Passes
    }
}
