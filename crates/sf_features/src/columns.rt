ghost use Rattle.std.specs.Prelude.{◌≡◌, ◌<◌, ◌≤◌, ◌^◌, [], None, Some, IfErr, IfOk, IfSome, OnErr, OnOk, insert, is_some, length, option_copied, remove, slice_get};
ghost use Rattle.sf_features.specs.Columns.{named, numbered, place_named};

use super::column::Column;
use indexmap::IndexMap;
use std::alloc::{AllocError, Global};
use std::collections::BTreeMap;
use std::marker::Model;

/// Columns in order, found by name. Contracts see them as their list.
#[derive(Debug, Drop)]
pub struct Columns {
    // The number of each column. A tree, and no table of hashes: whoever chooses the names of columns
    // could make their hashes collide, and each look-up would pass them all.
    numbers: BTreeMap<String, u16>,
    // The columns in order, by number: the store chooses these.
    columns: IndexMap<u16, Column>,
}

impl Model for Columns {
    ghost use Rattle.std.specs.Prelude.{List};
    ghost use Rattle.std.specs.BTreeMap.{get_by_text};
    ghost use Rattle.std.specs.Map.{values_of};
    ghost use Rattle.sf_features.specs.declared.column.Column.{Column};
    ghost use Rattle.sf_features.specs.Columns.{AreNumbered};

    ghost Value = { List Column };

    ghost view = { λ a. values_of a.columns.entries };

    ghost invariant = { λ a. AreNumbered (get_by_text a.numbers) a.columns.entries };
}

impl Columns {
    /// No column.
    pub fn new(alloc: Global) -> Columns
        ensures { result ≡ [] }
    {
        Columns {
            numbers: BTreeMap::new(alloc),
            columns: IndexMap::new(alloc),
        }
    }

    /// A copy of the columns, in their order.
    ///
    /// # Errors
    ///
    /// Out of memory.
    pub fn copy(&self, alloc: Global) -> Result<Columns, AllocError>
        ensures { IfOk result (λ copy. copy ≡ self.now) }
    {
        let mut copy = Columns::new(alloc);
        for place in 0..self.columns.len() {
            let column = self.columns[place].copy(alloc)?;
            let Ok(()) = copy.put(alloc, place, column) else {
                return Err(AllocError);
            };
        }
        Ok(copy)
    }

    /// How many columns there are.
    pub fn len(&self) -> usize
        ensures len { result ≡ length self.now }
        ensures small { result < 2 ^ 63 }
    {
        self.columns.len()
    }

    /// The column at a place of the order, or None from their number on.
    pub fn at(&self, place: usize) -> Option<&Column>
        ensures { option_copied result ≡ slice_get self.now place }
    {
        let (_, column) = self.columns.get_index(place)?;
        Some(column)
    }

    /// The place of the column of a name in the order, or None where no column has it.
    pub fn place(&self, name: &str) -> Option<usize>
        ensures there { IfSome result (λ place. place ≡ place_named self.now name.now) }
        ensures found { is_some result ≡ is_some (named self.now name.now) }
    {
        match self.numbers.get(name) {
            Some(number) => self.columns.get_index_of(number),
            None => None,
        }
    }

    /// The column of a number, or None where no column has it.
    pub fn numbered(&self, number: u16) -> Option<&Column>
        ensures { option_copied result ≡ numbered self.now number }
    {
        self.columns.get(&number)
    }

    /// Puts a column at a place of the order, under a name and a number that are free; the columns
    /// from that place on move up by one.
    ///
    /// # Errors
    ///
    /// Where no memory is found, the column is given back and nothing is changed.
    pub fn put(&mut self, alloc: Global, place: usize, column: Column) -> Result<(), Column>
        requires within { place ≤ length self.old }
        requires free { named self.old column.name ≡ None }
        requires unused { numbered self.old column.number ≡ None }
        ensures put { OnOk result (self.new ≡ insert self.old place column) }
        ensures given_back { IfErr result (λ back. back ≡ column) }
        ensures unchanged { OnErr result (self.new ≡ self.old) }
    {
        let number = column.number;
        let Ok(name) = String::from_str(alloc, column.name.as_str()) else {
            return Err(column);
        };
        let Ok(()) = self.columns.reserve(1) else {
            return Err(column);
        };
        let Ok(_) = self.numbers.insert(name, number) else {
            return Err(column);
        };
        let _ = self.columns.shift_insert(place, number, column).unwrap();
        Ok(())
    }

    /// Removes the column at a place, and gives it; the columns after it close up.
    pub fn take(&mut self, place: usize) -> Column
        requires { place < length self.old }
        ensures taken { slice_get self.old place ≡ Some result }
        ensures rest { self.new ≡ remove self.old place }
    {
        let (_, column) = self.columns.shift_remove_index(place).unwrap();
        let _ = self.numbers.remove(column.name.as_str());
        column
    }
}
