//! The tables of a database by their names: how they are made, looked through, filled and emptied.
//! What always holds of them is the invariant of `Database`.
ghost use Rattle.std.specs.Prelude.{◌≡◌, ◌≤◌, ◌<◌, ◌^◌, ◌++◌, ◌∷◌, [], Some, Bool, Contains, IsTrue, true, false, OnOk, OnErr, IfOk, IfSome, MatchOption, length, map, filter, take, drop, slice_get, List, ◌+◌, ◌*◌, ℕ};
ghost use Rattle.cqa_model.specs.Database.{Table as StoredTable, AreConsistent, IsDatabase, names_of, row_total, kinds_of, block_cmp};
ghost use Rattle.std.specs.List.Sorted.{IsStrictlySortedBy};
ghost use Rattle.cqa_value.specs.declared.value.Value.{Value};
ghost use Rattle.cqa_value.specs.Values.{kind_of};
ghost use Rattle.row_order.specs.Spans.{IsSpan};
ghost use Rattle.table_blocks.specs.Keys.{IsKey, first_clash};
ghost use Rattle.table_blocks.specs.Tables.{table_named, rows_at, key_at, mark_at, kinds_at, with_rows, with_mark, rekey_clash, Deletes, IsToldStretch, Rekeys, AreMergeable, AreValidRows, AreValidTables, IsMerged, IsSpared};

use crate::clash::Clash;
use crate::rows::{Fresh, find_in};
use crate::span::span_in;
use crate::steps::Steps;
use crate::table::Table;
use crate::test::ColumnTest;
use cqa_model::{MOST_ROWS, MOST_TABLES, Schema};
use cqa_value::{Items, Name, NoMemory, Row};
use indexmap::IndexMap;
use row_order::Probe;
use row_pieces::{Pieces, Rows};
use std::alloc::Global;
use std::marker::Model;
use std::sync::ledger::Ledger;

/// Tables in the order of their creation, under different names. Their values are valid.
pub struct Database {
    tables: IndexMap<Name, Table>,
}

impl Drop for Database {
    fn drop(self) {
        let Database { tables: _ } = self;
    }
}

impl Model for Database {
    ghost use Rattle.std.specs.Prelude.{List, ◌≡◌};
    ghost use Rattle.indexmap.specs.IndexMap.{keys, values};
    ghost use Rattle.cqa_model.specs.Database.{Table as StoredTable, names_of};
    ghost use Rattle.table_blocks.specs.Tables.{AreValidTables};

    ghost Value = { List StoredTable };

    ghost view = { λ d. values d.tables };

    ghost invariant = { λ d. (keys d.tables ≡ names_of (values d.tables)) × AreValidTables (values d.tables) };
}

impl Database {
    /// A database without tables.
    pub fn new(alloc: Global) -> Database
        ensures empty { result ≡ [] }
        ensures stored { AreValidTables result }
    {
        Database {
            tables: IndexMap::new(alloc),
        }
    }

    /// The number of tables.
    pub fn count(&self) -> u32
        ensures count { result ≡ length self.now }
        ensures database { IsDatabase self.now }
        ensures stored { AreValidTables self.now }
    {
        self.tables.len() as u32
    }

    /// The allocator that it takes memory from.
    pub fn allocator(&self) -> Global {
        *self.tables.allocator()
    }

    /// The place of the table with a name.
    pub fn find(&self, name: &Name) -> Option<u32>
        ensures { result ≡ table_named self.now name.now }
    {
        let at = self.tables.get_index_of(name)?;
        Some(at as u32)
    }

    fn table(&self, table: u32) -> &Table
        requires { table < length self.now }
        ensures found { slice_get self.now table ≡ Some result.now }
        ensures database { IsDatabase self.now }
    {
        match self.tables.get_index(table as usize) {
            Some((_, found)) => found,
            None => unreachable!(),
        }
    }

    /// The schema of a table.
    pub fn schema(&self, table: u32) -> &Schema
        requires { table < length self.now }
        ensures is { IfSome (slice_get self.now table) (λ t. result.now ≡ t.schema) }
        ensures kinds { kinds_of result.now ≡ kinds_at self.now table }
        ensures key { result.now.key ≡ key_at self.now table }
    {
        self.table(table).schema()
    }

    /// Whether a table is strict: no two of its rows share its key then.
    pub fn is_strict(&self, table: u32) -> bool
        requires { table < length self.now }
        ensures is { result ≡ mark_at self.now table }
        ensures consistent { IsTrue result → AreConsistent (key_at self.now table) (rows_at self.now table) }
    {
        self.table(table).is_strict()
    }

    /// The rows of a table, in block order.
    pub fn rows(&self, table: u32) -> Rows<'_>
        requires { table < length self.now }
        ensures is { result ≡ rows_at self.now table }
        ensures in_order { IsStrictlySortedBy (block_cmp (key_at self.now table)) result }
        ensures few { length result ≤ MOST_ROWS }
    {
        self.table(table).rows()
    }

    /// The places of a table's key columns.
    fn key(&self, table: u32) -> &[u32]
        requires { table < length self.now }
        ensures { result.now ≡ key_at self.now table }
    {
        self.table(table).key()
    }

    /// The number of rows in all tables.
    pub fn row_total(&self) -> u32
        ensures total { result ≡ row_total self.now }
        ensures few { result ≤ MOST_ROWS }
    {
        let mut total = 0;
        for table in 0..self.count() {
            total += self.rows(table).len();
        }
        total as u32
    }

    /// The place of a row in a table, in block order.
    pub fn place_of(&self, table: u32, row: &Row) -> Option<u32>
        requires { table < length self.now }
        ensures { MatchOption result (Contains (rows_at self.now table) row.now → ⊥) (λ at. slice_get (rows_at self.now table) at ≡ Some row.now) }
    {
        let at = find_in(&self.rows(table), self.key(table), row)?;
        Some(at as u32)
    }

    /// The rows of a table whose first key values are a probe's, and the place of the first of them.
    ///
    /// It takes at most twice as many comparisons of keys as the number of the table's rows has binary digits.
    pub fn span<L: Ledger>(
        &self,
        table: u32,
        probe: &Probe<'_>,
        steps: &mut Steps<L>,
    ) -> (u32, Rows<'_>)
        requires there { table < length self.now }
        requires few { length probe.now ≤ length (key_at self.now table) }
        ensures span { IsSpan (key_at self.now table) (rows_at self.now table) probe.now result.0 result.1 }
        ensures within { result.0 + length result.1 ≤ MOST_ROWS }
        ensures cost { (digits : ℕ) → length (rows_at self.now table) < 2 ^ digits → steps.new ≤ steps.old + 2 * digits }
    {
        let (start, rows) = span_in(&self.rows(table), self.key(table), probe, steps);
        (start as u32, rows)
    }

    /// The block of a table whose key values are a probe's; no rows where there is none.
    ///
    /// It takes at most twice as many comparisons of keys as the number of the table's rows has binary digits.
    pub fn block<L: Ledger>(&self, table: u32, probe: &Probe<'_>, steps: &mut Steps<L>) -> Rows<'_>
        requires there { table < length self.now }
        requires all { length probe.now ≡ length (key_at self.now table) }
        ensures block { (start : ℕ) × IsSpan (key_at self.now table) (rows_at self.now table) probe.now start result }
        ensures cost { (digits : ℕ) → length (rows_at self.now table) < 2 ^ digits → steps.new ≤ steps.old + 2 * digits }
    {
        let (_, rows) = self.span(table, probe, steps);
        rows
    }

    /// The rows of a table whose first key values are a probe's, and the place of the first of them: one search by halving,
    /// unless they stand shortly behind those of the table's last call, and doubling steps to the last of them. No comparison is
    /// counted.
    pub fn rows_with(&self, table: u32, probe: &Probe<'_>) -> (u32, Rows<'_>)
        requires there { table < length self.now }
        requires few { length probe.now ≤ length (key_at self.now table) }
        ensures span { IsSpan (key_at self.now table) (rows_at self.now table) probe.now result.0 result.1 }
        ensures within { result.0 + length result.1 ≤ MOST_ROWS }
    {
        let (start, rows) = self.table(table).rows_with(probe);
        (start as u32, rows)
    }

    /// Puts a table without rows last.
    ///
    /// # Errors
    ///
    /// `NoMemory` where memory is refused; nothing has changed then.
    pub fn create(&mut self, alloc: Global, schema: Schema) -> Result<(), NoMemory>
        requires room { length self.old < MOST_TABLES }
        requires other { Contains (names_of self.old) schema.name → ⊥ }
        ensures ok { OnOk result (self.new ≡ self.old ++ (record { schema = schema; rows = [] }) ∷ []) }
        ensures err { OnErr result (self.new ≡ self.old) }
        ensures stored { AreValidTables self.new }
    {
        let _ = &self.tables;
        let name = schema.name.copy(alloc)?;
        self.tables.insert(name, Table::new(alloc, schema))?;
        Ok(())
    }

    /// Puts sorted rows that aren't there yet into a table.
    ///
    /// # Errors
    ///
    /// `NoMemory` where memory is refused. Nothing has changed then.
    pub fn add(&mut self, table: u32, fresh: Fresh) -> Result<(), NoMemory>
        requires there { table < length self.old }
        requires mergeable { AreMergeable (key_at self.old table) (rows_at self.old table) fresh.rows.items fresh.places.items }
        requires fits { (row : List Value) → Contains fresh.rows.items row → map kind_of row ≡ kinds_at self.old table }
        requires valid { AreValidRows fresh.rows.items }
        requires room { row_total self.old + length fresh.rows.items ≤ MOST_ROWS }
        requires consistent { IsTrue (mark_at self.old table) → AreConsistent (key_at self.old table) (rows_at self.old table ++ fresh.rows.items) }
        ensures changed { OnOk result ((rows : List (List Value)) × IsMerged (key_at self.old table) (rows_at self.old table) fresh.rows.items rows × (self.new ≡ with_rows self.old table rows)) }
        ensures err { OnErr result (self.new ≡ self.old) }
        ensures stored { AreValidTables self.new }
    {
        match self.tables.get_index_mut(table as usize) {
            Some(found) => {
                found.add(fresh)?;
                Ok(())
            }
            None => unreachable!(),
        }
    }

    /// Gives a table without rows its rows, in block order and in the pieces in which it holds them. The table isn't strict.
    pub fn fill(&mut self, table: u32, rows: Pieces)
        requires there { table < length self.old }
        requires empty { rows_at self.old table ≡ [] }
        requires lax { mark_at self.old table ≡ false }
        requires ascending { IsStrictlySortedBy (block_cmp (key_at self.old table)) rows }
        requires fits { (row : List Value) → Contains rows row → map kind_of row ≡ kinds_at self.old table }
        requires valid { AreValidRows rows }
        requires room { row_total self.old + length rows ≤ MOST_ROWS }
        ensures filled { self.new ≡ with_rows self.old table rows }
        ensures stored { AreValidTables self.new }
    {
        match self.tables.get_index_mut(table as usize) {
            Some(found) => found.fill(rows),
            None => unreachable!(),
        }
    }

    /// The places from which on and up to which rows of a table stand that have the first key values which tests tell.
    pub fn told_places(&self, table: u32, tests: &[ColumnTest]) -> (usize, usize)
        requires { table < length self.now }
        ensures told { IsToldStretch (key_at self.now table) (rows_at self.now table) tests.now result.0 result.1 }
        ensures within { result.1 ≤ length (rows_at self.now table) }
    {
        self.table(table).told_places(tests)
    }

    /// Takes the rows of a stretch of a table away that aren't told to stay: `told` says that equal rows are told the same.
    pub fn keep_told(&mut self, table: u32, from: usize, stays: &[bool])
        requires there { table < length self.old }
        requires within { from + length stays.now ≤ length (rows_at self.old table) }
        requires told { (p : List Value → Bool) × (stays.now ≡ map p (take (length stays.now) (drop from (rows_at self.old table)))) }
        ensures kept { (p : List Value → Bool) → stays.now ≡ map p (take (length stays.now) (drop from (rows_at self.old table))) → self.new ≡ with_rows self.old table ((take from (rows_at self.old table) ++ filter p (take (length stays.now) (drop from (rows_at self.old table)))) ++ drop (from + length stays.now) (rows_at self.old table)) }
        ensures stored { AreValidTables self.new }
    {
        match self.tables.get_index_mut(table as usize) {
            Some(found) => found.keep_told(from, stays),
            None => unreachable!(),
        }
    }

    /// Takes the rows away from a table for which all tests hold.
    fn remove(&mut self, table: u32, tests: &[ColumnTest])
        requires { table < length self.old }
        ensures stored { AreValidTables self.new }
        ensures spared { (rows : List (List Value)) × IsSpared (key_at self.old table) (rows_at self.old table) tests.now rows × (self.new ≡ with_rows self.old table rows) × (length rows ≤ length (rows_at self.old table)) }
    {
        match self.tables.get_index_mut(table as usize) {
            Some(found) => found.remove(tests),
            None => unreachable!(),
        }
    }

    /// Takes the rows away from a table for which all tests hold, and gives their number.
    pub fn delete(&mut self, table: u32, tests: &[ColumnTest]) -> u32
        requires { table < length self.old }
        ensures deleted { Deletes self.old table tests.now self.new result }
        ensures stored { AreValidTables self.new }
    {
        let stored = self.rows(table).len();
        self.remove(table, tests);
        (stored - self.rows(table).len()) as u32
    }

    /// Makes a table strict, unless two of its rows share the key: then this gives the first two rows of the first block of more
    /// than one row, and nothing has changed.
    ///
    /// # Errors
    ///
    /// `NoMemory` where memory is refused. Nothing has changed then.
    pub fn make_strict(&mut self, table: u32) -> Result<Option<Clash>, NoMemory>
        requires { table < length self.old }
        ensures clash { IfOk result (λ clash. clash ≡ first_clash (key_at self.old table) (rows_at self.old table)) }
        ensures changed { IfOk result (λ clash. MatchOption clash (self.new ≡ with_mark self.old table true) (λ _. self.new ≡ self.old)) }
        ensures err { OnErr result (self.new ≡ self.old) }
        ensures stored { AreValidTables self.new }
    {
        match self.tables.get_index_mut(table as usize) {
            Some(found) => found.make_strict(),
            None => unreachable!(),
        }
    }

    /// Lets a table hold rows that share a key.
    pub fn drop_strict(&mut self, table: u32)
        requires { table < length self.old }
        ensures is { self.new ≡ with_mark self.old table false }
        ensures stored { AreValidTables self.new }
    {
        match self.tables.get_index_mut(table as usize) {
            Some(found) => found.drop_strict(),
            None => unreachable!(),
        }
    }

    /// Gives a table another key: its rows stay, and stand in the block order of that key. If the table is strict and two rows
    /// would share the key, this gives the first two rows of the first block of more than one row, and nothing has changed.
    ///
    /// # Errors
    ///
    /// `NoMemory` where memory is refused. Nothing has changed then.
    pub fn rekey(&mut self, table: u32, key: Items<u32>) -> Result<Option<Clash>, NoMemory>
        requires there { table < length self.old }
        requires key { IsKey (length (kinds_at self.old table)) key }
        ensures clash { IfOk result (λ clash. clash ≡ rekey_clash self.old table key) }
        ensures changed { IfOk result (λ clash. MatchOption clash (Rekeys self.old table key self.new) (λ _. self.new ≡ self.old)) }
        ensures err { OnErr result (self.new ≡ self.old) }
        ensures stored { AreValidTables self.new }
    {
        match self.tables.get_index_mut(table as usize) {
            Some(found) => found.rekey(key),
            None => unreachable!(),
        }
    }
}
