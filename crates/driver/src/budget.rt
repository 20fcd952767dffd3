//! Budgets: how many fruitless polls a call may make.

ghost use Rattle.std.specs.Prelude.{◌≡◌, ◌+◌, ◌<◌, ◌≤◌, Ok, Err};

use registers::error::{BudgetError, Wait};

/// The answer of a call that may wait, and how many of its polls were fruitless.
#[derive(Clone, Copy, Debug, PartialEq, Eq)]
pub struct Waited<T> {
    /// How the call ended.
    pub result: T,
    /// The fruitless polls, one more than the budget where it was used up.
    pub fruitless: u32,
}

/// The answer of an exact transfer: how it ended, its fruitless polls, and the bytes that it moved,
/// also where its budget was used up.
#[derive(Clone, Copy, Debug, PartialEq, Eq)]
pub struct Transferred {
    /// How the call ended.
    pub result: Result<(), BudgetError>,
    /// The fruitless polls, one more than the budget where it was used up.
    pub fruitless: u32,
    /// The bytes moved.
    pub moved: usize,
}

/// The one budget of a call, and the fruitless polls so far.
// That the count is within the limit is asked for by each function that may wait. It cannot be a
// fact of the type: a refusal leaves the count at one more than the limit, which is reported. That
// the limit stays is a fact of each call that may spend, and no type of a loan says it.
// Nor does a type hold a budget with its wait: the budget is the call's, the wait each step's.
#[derive(Drop)]
pub struct Budget {
    limit: u16,
    fruitless: u32,
}

impl Budget {
    /// A budget of which nothing is spent.
    pub fn new(limit: u16) -> Budget
        ensures { (result.limit ≡ limit) × (result.fruitless ≡ 0) }
    {
        Budget {
            limit,
            fruitless: 0,
        }
    }

    /// The answer of a call that ends so, with what this budget counted.
    pub fn waited<T>(&self, ended: T) -> Waited<T>
        ensures { result ≡ record { result = ended; fruitless = self.now.fruitless } }
    {
        Waited {
            result: ended,
            fruitless: self.fruitless,
        }
    }

    /// The answer of an exact transfer that ends so, with what this budget counted.
    pub fn transferred(&self, moved: usize, ended: Result<(), BudgetError>) -> Transferred
        ensures { result ≡ record { result = ended; fruitless = self.now.fruitless; moved = moved } }
    {
        Transferred {
            result: ended,
            fruitless: self.fruitless,
            moved,
        }
    }

    /// Counts one fruitless poll in this wait; refuses where the budget has no place for it.
    pub fn spend(&mut self, wait: Wait) -> Result<(), BudgetError>
        requires { self.old.fruitless ≤ self.old.limit }
        ensures limit { self.new.limit ≡ self.old.limit }
        ensures counted { self.new.fruitless ≡ self.old.fruitless + 1 }
        ensures answer { elim result [
          | Ok u ↦ self.old.fruitless < self.old.limit
          | Err e ↦ (e.wait ≡ wait) × (self.old.fruitless ≡ self.old.limit)
        ] }
    {
        self.fruitless += 1;
        if self.fruitless > u32::from(self.limit) {
            return Err(BudgetError { wait });
        }
        Ok(())
    }
}
