//! Rows that are numbered in the order in which they come.
ghost use Rattle.std.specs.Prelude.{◌≡◌, ◌<◌, [], ◌∷◌, ◌++◌, length, IfOk, OnOk, OnErr};
ghost use Rattle.ck_tables.specs.Rows.{IsRow};

use ck_base::OutOfMemory;
use std::alloc::Global;

/// Rows that are numbered from 0 in the order in which they come.
#[derive(Drop)]
pub struct Rows<T> {
    rows: Vec<T>,
}

impl<T> Rows<T> {
    /// No rows.
    pub fn new(alloc: Global) -> Rows<T>
        ensures { result.rows.items ≡ [] }
    {
        Rows {
            rows: Vec::new(alloc),
        }
    }

    /// The rows, each at its number.
    pub fn as_slice(&self) -> &[T]
        ensures { result.now ≡ self.now.rows.items }
    {
        self.rows.as_slice()
    }
}

impl<T: Drop> Rows<T> {
    /// Adds a row, and gives its number. What was there stays.
    pub fn push(&mut self, row: T) -> Result<u32, OutOfMemory>
        ensures rows { OnOk result (self.new.rows.items ≡ self.old.rows.items ++ row ∷ []) }
        ensures unchanged { OnErr result (self.new.rows.items ≡ self.old.rows.items) }
        ensures number { IfOk result (λ number. number ≡ length self.old.rows.items) }
        ensures known { IfOk result (λ number. number < length self.new.rows.items) }
    {
        let Ok(number) = u32::try_from(self.rows.len()) else {
            return Err(OutOfMemory);
        };
        self.rows.push(row)?;
        Ok(number)
    }

    /// A row by its number.
    pub fn row(&self, number: u32) -> &T
        requires { number < length self.now.rows.items }
        ensures { IsRow self.now.rows.items number result.now }
    {
        &self.rows[number as usize]
    }
}
