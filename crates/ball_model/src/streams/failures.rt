//! How many calls failed: for clauses exactly, for callers up to the greatest u64.

ghost use Rattle.std.specs.Prelude.{◌≡◌, ℕ, ◌+◌, ◌-◌, ◌^◌, min};
ghost use Rattle.std.specs.Borrow.{ftrue};

use std::marker::Model;

// A number that only clauses read. It takes no bytes.
#[derive(Drop)]
struct Number {
    ghost value: { ℕ },
}

impl Model for Number {
    ghost also_owns = { λ _. ftrue };
}

// A number owns nothing.
unsafe impl Send for Number {}

unsafe impl Sync for Number {}

impl Number {
    fn zero() -> Number
        ensures { result.value ≡ 0 }
    {
        Number {}
    }

    fn after(_number: &Number) -> Number
        ensures { result.value ≡ _number.now.value + 1 }
    {
        Number {}
    }
}

// How many calls failed. A clause sees the exact number; the one that is answered stops at the greatest u64.
#[derive(Drop)]
pub(crate) struct FailedCalls {
    told: u64,
    exact: Number,
}

impl Model for FailedCalls {
    ghost Value = { ℕ };

    ghost view = { λ f. f.exact.value };

    ghost invariant = { λ f. f.told ≡ min f.exact.value (2 ^ 64 - 1) };
}

impl FailedCalls {
    pub(crate) fn none() -> FailedCalls
        ensures { result ≡ 0 }
    {
        FailedCalls {
            told: 0,
            exact: Number::zero(),
        }
    }

    pub(crate) fn add_one(&mut self)
        ensures { self.new ≡ self.old + 1 }
    {
        self.told = self.told.saturating_add(1);
        self.exact = Number::after(&self.exact);
    }

    pub(crate) fn count(&self) -> u64
        ensures { result ≡ min self.now (2 ^ 64 - 1) }
    {
        self.told
    }
}
