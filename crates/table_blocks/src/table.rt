//! One table: a schema, and rows of it in block order.
//! Only its own methods change its rows.
ghost use Rattle.std.specs.Prelude.{◌≡◌, ◌+◌, ◌≤◌, ◌++◌, [], Bool, List, Contains, length, map, filter, take, drop, true, false, IsTrue, None, if◌then◌else◌, OnOk, OnErr, IfOk, MatchOption};
ghost use Rattle.std.specs.List.Sorted.{IsStrictlySortedBy};
ghost use Rattle.cqa_value.specs.declared.value.Value.{Value};
ghost use Rattle.cqa_model.specs.Database.{AreConsistent, IsTable, IsRowOf, block_cmp};
ghost use Rattle.row_order.specs.Ordered.{block_order};
ghost use Rattle.row_order.specs.Spans.{IsSpan};
ghost use Rattle.table_blocks.specs.Keys.{IsKey, first_clash};
ghost use Rattle.table_blocks.specs.Tables.{AreMergeable, AreValidRows, IsMerged, IsSpared, IsRekeyed, IsToldStretch};

use crate::clash::{Clash, clash_of};
use crate::rows::{Fresh, put_in_order_of, remove, told_places};
use crate::span::rows_near;
use crate::test::ColumnTest;
use cqa_model::Schema;
use cqa_value::{Items, NoMemory};
use row_order::Probe;
use row_pieces::{Pieces, Rows};
use std::alloc::Global;
use std::cell::Cell;
use std::marker::Model;
use std::mem::replace;

/// A table: its rows are of its schema, stand in block order, and hold valid values.
pub struct Table {
    schema: Schema,
    rows: Pieces,
    /// Where the next look-up by key begins: the place before the first row that the last one found. Nothing rests on it.
    finger: Cell<usize>,
}

impl Drop for Table {
    fn drop(self) {
        let Table {
            schema: _,
            rows: _,
            finger: _,
        } = self;
    }
}

impl Model for Table {
    ghost use Rattle.cqa_model.specs.Database.{Table as StoredTable, IsTable};
    ghost use Rattle.table_blocks.specs.Tables.{AreValidRows};

    ghost Value = { StoredTable };

    ghost view = { λ t. record { schema = t.schema; rows = t.rows } };

    ghost invariant = { λ t. IsTable (record { schema = t.schema; rows = t.rows }) × AreValidRows t.rows };
}

fn key_places(schema: &Schema) -> &[u32]
    ensures { result.now ≡ schema.now.key }
{
    schema.key.as_slice()
}

impl Table {
    /// A table without rows.
    pub fn new(alloc: Global, schema: Schema) -> Table
        ensures { result ≡ record { schema = schema; rows = [] } }
    {
        Table {
            schema,
            rows: Pieces::new(alloc),
            finger: Cell::new(0),
        }
    }

    /// Its schema.
    pub fn schema(&self) -> &Schema
        ensures { result.now ≡ self.now.schema }
    {
        &self.schema
    }

    /// The places of its key's columns, in the order of the key.
    pub fn key(&self) -> &[u32]
        ensures { result.now ≡ self.now.schema.key }
    {
        key_places(&self.schema)
    }

    /// Whether it is strict: no two of its rows share its key then.
    pub fn is_strict(&self) -> bool
        ensures is { result ≡ self.now.schema.strict }
        ensures consistent { IsTrue result → AreConsistent self.now.schema.key self.now.rows }
    {
        self.schema.strict
    }

    /// Its rows, in block order.
    pub fn rows(&self) -> Rows<'_>
        ensures is { result ≡ self.now.rows }
        ensures table { IsTable self.now }
        ensures valid { AreValidRows self.now.rows }
    {
        self.rows.rows()
    }

    /// The rows whose first key values are a probe's, and how many come before them.
    pub fn rows_with(&self, probe: &Probe<'_>) -> (usize, Rows<'_>)
        requires { length probe.now ≤ length self.now.schema.key }
        ensures { IsSpan self.now.schema.key self.now.rows probe.now result.0 result.1 }
    {
        let key = key_places(&self.schema);
        let (start, rows) = rows_near(&self.rows.rows(), key, probe, self.finger.get());
        self.finger.set(start.saturating_sub(1));
        (start, rows)
    }

    /// Puts in sorted rows that aren't there yet.
    pub fn add(&mut self, fresh: Fresh) -> Result<(), NoMemory>
        requires mergeable { AreMergeable self.old.schema.key self.old.rows fresh.rows.items fresh.places.items }
        requires fits { (row : List Value) → Contains fresh.rows.items row → IsRowOf self.old.schema row }
        requires valid { AreValidRows fresh.rows.items }
        requires consistent { IsTrue self.old.schema.strict → AreConsistent self.old.schema.key (self.old.rows ++ fresh.rows.items) }
        ensures table { IsTable self.new }
        ensures valid { AreValidRows self.new.rows }
        ensures schema { self.new.schema ≡ self.old.schema }
        ensures merged { OnOk result (IsMerged self.old.schema.key self.old.rows fresh.rows.items self.new.rows) }
        ensures count { OnOk result (length self.new.rows ≡ length self.old.rows + length fresh.rows.items) }
        ensures err { OnErr result (self.new ≡ self.old) }
    {
        let Fresh { rows, places } = fresh;
        self.rows.insert(rows, places.as_slice())?;
        Ok(())
    }

    /// Takes all its rows, in block order and in the pieces in which they are held then. It isn't strict.
    pub fn fill(&mut self, rows: Pieces)
        requires ascending { IsStrictlySortedBy (block_cmp self.old.schema.key) rows }
        requires fits { (row : List Value) → Contains rows row → IsRowOf self.old.schema row }
        requires valid { AreValidRows rows }
        requires lax { self.old.schema.strict ≡ false }
        ensures table { IsTable self.new }
        ensures is { self.new ≡ record self.old { rows = rows } }
    {
        drop(replace(&mut self.rows, rows));
    }

    /// Makes the table strict, unless two rows share its key: then this gives the first two rows of the first block of more than
    /// one row, and nothing has changed.
    ///
    /// # Errors
    ///
    /// `NoMemory` where memory is refused. Nothing has changed then.
    pub fn make_strict(&mut self) -> Result<Option<Clash>, NoMemory>
        ensures clash { IfOk result (λ clash. clash ≡ first_clash self.old.schema.key self.old.rows) }
        ensures changed { IfOk result (λ clash. MatchOption clash (self.new ≡ record self.old { schema = record self.old.schema { strict = true } }) (λ _. self.new ≡ self.old)) }
        ensures err { OnErr result (self.new ≡ self.old) }
        ensures table { IsTable self.new }
        ensures valid { AreValidRows self.new.rows }
        ensures name { self.new.schema.name ≡ self.old.schema.name }
        ensures rows { self.new.rows ≡ self.old.rows }
    {
        let key = key_places(&self.schema);
        match clash_of(self.rows.allocator(), &self.rows.rows(), key)? {
            Some(clash) => Ok(Some(clash)),
            None => {
                self.schema.strict = true;
                Ok(None)
            }
        }
    }

    /// Lets the table hold rows that share a key.
    pub fn drop_strict(&mut self)
        ensures is { self.new ≡ record self.old { schema = record self.old.schema { strict = false } } }
        ensures table { IsTable self.new }
        ensures valid { AreValidRows self.new.rows }
    {
        self.schema.strict = false;
    }

    /// Gives the table another key, and puts its rows in the block order of that key, unless it is strict and two rows would
    /// share the key: then this gives the first two rows of the first block of more than one row, and nothing has changed.
    ///
    /// # Errors
    ///
    /// `NoMemory` where memory is refused. Nothing has changed then.
    pub fn rekey(&mut self, key: Items<u32>) -> Result<Option<Clash>, NoMemory>
        requires { IsKey (length self.old.schema.columns) key }
        ensures clash { IfOk result (λ clash. clash ≡ (if self.old.schema.strict then first_clash key (block_order key self.old.rows) else None)) }
        ensures changed { IfOk result (λ clash. MatchOption clash (IsRekeyed self.old key self.new) (λ _. self.new ≡ self.old)) }
        ensures err { OnErr result (self.new ≡ self.old) }
        ensures table { IsTable self.new }
        ensures valid { AreValidRows self.new.rows }
        ensures name { self.new.schema.name ≡ self.old.schema.name }
        ensures no_more { length self.new.rows ≤ length self.old.rows }
    {
        let strict = self.schema.strict;
        match put_in_order_of(
            &mut self.rows,
            key_places(&self.schema),
            key.as_slice(),
            strict,
        )? {
            Some(clash) => Ok(Some(clash)),
            None => {
                self.schema.key = key;
                Ok(None)
            }
        }
    }

    /// Takes the rows away for which all tests hold.
    pub fn remove(&mut self, tests: &[ColumnTest])
        ensures table { IsTable self.new }
        ensures valid { AreValidRows self.new.rows }
        ensures schema { self.new.schema ≡ self.old.schema }
        ensures spared { IsSpared self.old.schema.key self.old.rows tests.now self.new.rows }
        ensures fewer { length self.new.rows ≤ length self.old.rows }
    {
        remove(&mut self.rows, key_places(&self.schema), tests);
    }

    /// The places from which on and up to which its rows stand that have the first key values which tests tell.
    pub fn told_places(&self, tests: &[ColumnTest]) -> (usize, usize)
        ensures told { IsToldStretch self.now.schema.key self.now.rows tests.now result.0 result.1 }
        ensures within { result.1 ≤ length self.now.rows }
    {
        let key = key_places(&self.schema);
        told_places(&self.rows.rows(), key, tests)
    }

    /// Takes the rows of a stretch away that aren't told to stay.
    pub fn keep_told(&mut self, from: usize, stays: &[bool])
        requires within { from + length stays.now ≤ length self.old.rows }
        requires told { (p : List Value → Bool) × (stays.now ≡ map p (take (length stays.now) (drop from self.old.rows))) }
        ensures table { IsTable self.new }
        ensures valid { AreValidRows self.new.rows }
        ensures schema { self.new.schema ≡ self.old.schema }
        ensures kept { (p : List Value → Bool) → stays.now ≡ map p (take (length stays.now) (drop from self.old.rows)) → self.new.rows ≡ (take from self.old.rows ++ filter p (take (length stays.now) (drop from self.old.rows))) ++ drop (from + length stays.now) self.old.rows }
        ensures fewer { length self.new.rows ≤ length self.old.rows }
    {
        self.rows.retain_told(from, stays);
    }
}
