//! Binomial coefficients.
ghost use Rattle.std.specs.Prelude.{◌≡◌, ◌+◌, ◌≤◌, IfOk};
ghost use Rattle.count_laws.specs.Choose.{choose};
ghost use Rattle.splits.specs.Capped.{Tells};

use crate::capped::plus;
use std::alloc::{AllocError, Global};
use std::marker::Model;

/// A row of the triangle. A contract sees its number.
#[derive(Drop)]
struct Row {
    numbers: Vec<Option<u128>>,
}

impl Model for Row {
    ghost use Rattle.std.specs.Prelude.{ℕ, ◌-◌, ◌<◌, length};
    ghost use Rattle.splits.specs.Pascal.{AreChoices};

    ghost Value = { ℕ };

    ghost view = { λ a. length a.numbers.items - 1 };

    ghost invariant = { λ a. (0 < length a.numbers.items) × AreChoices (length a.numbers.items - 1) a.numbers.items };
}

impl Row {
    /// The row of 0, which has the coefficient 1 alone.
    fn first(alloc: Global) -> Result<Row, AllocError>
        ensures { IfOk result (λ row. row ≡ 0) }
    {
        let mut numbers = Vec::new(alloc);
        numbers.push(Some(1))?;
        Ok(Row { numbers })
    }

    /// The next row, by the sums of neighbours.
    fn next(&self, alloc: Global) -> Result<Row, AllocError>
        ensures { IfOk result (λ row. row ≡ self.now + 1) }
    {
        let mut numbers = Vec::new(alloc);
        numbers.push(Some(1))?;
        for d in 1..self.numbers.len() {
            numbers.push(plus(self.numbers[d - 1], self.numbers[d]))?;
        }
        numbers.push(Some(1))?;
        Ok(Row { numbers })
    }

    /// The coefficient at the place.
    fn at(&self, d: usize) -> Option<u128>
        requires { d ≤ self.now }
        ensures { Tells result (choose self.now d) }
    {
        self.numbers[d]
    }
}

/// The binomial coefficients of the numbers up to a greatest one, by Pascal's triangle (Blaise Pascal, 1654). A contract sees
/// that number.
#[derive(Drop)]
pub struct Pascal {
    rows: Vec<Row>,
}

impl Model for Pascal {
    ghost use Rattle.std.specs.Prelude.{ℕ, ◌-◌, ◌<◌, length};
    ghost use Rattle.splits.specs.Pascal.{AreInPlace};

    ghost Value = { ℕ };

    ghost view = { λ a. length a.rows.items - 1 };

    ghost invariant = { λ a. (0 < length a.rows.items) × AreInPlace a.rows.items };
}

impl Pascal {
    /// The coefficients of the numbers from 0 to `n`, which is at most 1000.
    ///
    /// # Errors
    ///
    /// Memory may be wanting.
    pub fn new(alloc: Global, n: u32) -> Result<Pascal, AllocError>
        requires { n ≤ 1000 }
        ensures { IfOk result (λ pascal. pascal ≡ n) }
    {
        let mut rows = Vec::new(alloc);
        rows.push(Row::first(alloc)?)?;
        for row in 0..n {
            let next = rows[row as usize].next(alloc)?;
            rows.push(next)?;
        }
        Ok(Pascal { rows })
    }

    /// In how many ways `d` of `n` things can be chosen, or None where these are 2^128 or more.
    pub fn choose(&self, n: u32, d: u32) -> Option<u128>
        requires row { n ≤ self.now }
        requires place { d ≤ n }
        ensures { Tells result (choose n d) }
    {
        self.rows[n as usize].at(d as usize)
    }
}
