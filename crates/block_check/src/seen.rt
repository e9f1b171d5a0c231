//! Which block is the first of its atom and key.

ghost use Rattle.std.specs.Prelude.{◌≡◌, ◌+◌, ◌++◌, ◌∷◌, List, [], OnOk, IfOk, Some, None, length, pos};
ghost use Rattle.std.specs.BTreeMap.{get};
ghost use Rattle.cqa_value.specs.declared.value.Value.{Value as Cell};
ghost use Rattle.cqa_value.specs.declared.value.Value.TheVariants.{Int};
ghost use Rattle.cqa_value.specs.Values.{row_cmp};
ghost use Rattle.cqa_model.specs.Database.{key_of};
ghost use Rattle.cqa_model.specs.Query.{atom_key};
ghost use Rattle.block_check.specs.Firsts.{KnowsFirsts, node_key, nth_node};

use block_tree::Node;
use cqa_model::Query;
use cqa_value::{MOST_VALUES, NOTHING, NoMemory, Row, Value};
use std::alloc::Global;
use std::collections::BTreeMap;

/// The place of the first block of each atom and key so far, by these, and for each block so far that of its first.
#[derive(Drop)]
pub struct Seen {
    pub known: BTreeMap<Row, usize>,
    pub firsts: Vec<usize>,
}

/// Adds a value to a key, if there is room.
fn add(key: &mut Row, value: Value) -> Result<(), NoMemory>
    ensures { OnOk result (key.new ≡ key.old ++ value ∷ []) }
{
    if key.len() as usize >= MOST_VALUES {
        drop(value);
        return Err(NoMemory);
    }
    key.push(value)
}

/// An atom and the values of a row in some columns.
fn key_values(alloc: Global, atom: u32, columns: &[u32], row: &Row) -> Result<Row, NoMemory>
    ensures { IfOk result (λ key. key ≡ Int (pos atom) ∷ key_of columns.now row.now) }
{
    let mut key = Row::new(alloc);
    add(&mut key, Value::Int(atom as i64))?;
    for place in columns {
        add(&mut key, row.at_or(*place, &NOTHING).copy(alloc)?)?;
    }
    Ok(key)
}

/// The places of an atom's key columns; none where it is no atom of the query.
pub fn columns_of_key<'a>(query: &'a Query, atom: u32) -> &'a [u32]
    ensures { result.now ≡ atom_key query.now atom }
{
    match query.atoms.as_slice().get(atom as usize) {
        Some(atom) => atom.key.as_slice(),
        None => &[],
    }
}

/// By what a block is known.
fn key_of_node(alloc: Global, query: &Query, node: &Node) -> Result<Row, NoMemory>
    ensures { IfOk result (λ key. key ≡ node_key query.now node.now) }
{
    let columns = columns_of_key(query, node.atom);
    match node.rows.as_slice().first() {
        Some(row) => key_values(alloc, node.atom, columns, row),
        None => {
            let none = Row::new(alloc);
            key_values(alloc, node.atom, columns, &none)
        }
    }
}

impl Seen {
    /// Nothing seen.
    fn new(alloc: Global) -> Seen
        ensures none { (key : List Cell) → get row_cmp result.known key ≡ None }
        ensures empty { result.firsts.items ≡ [] }
    {
        Seen {
            known: BTreeMap::new(alloc),
            firsts: Vec::new(alloc),
        }
    }

    /// The first block that is known by a key.
    fn told(&self, key: &Row) -> Option<usize>
        ensures { result ≡ get row_cmp self.now.known key.now }
    {
        self.known.get(key).copied()
    }

    /// A block is the first by a key.
    fn keep(&mut self, key: Row, at: usize) -> Result<(), NoMemory>
        ensures here { OnOk result (get row_cmp self.new.known key ≡ Some at) }
        ensures others { OnOk result ((k : List Cell) → (key ≡ k → ⊥) → get row_cmp self.new.known k ≡ get row_cmp self.old.known k) }
        ensures same { self.new.firsts ≡ self.old.firsts }
    {
        self.known.insert(key, at)?;
        Ok(())
    }

    /// One block more, by its key.
    fn turn(&mut self, query: &Query, nodes: &[Node], key: Row) -> Result<(), NoMemory>
        requires key { key ≡ node_key query.now (nth_node nodes.now (length self.old.firsts.items)) }
        requires knows { KnowsFirsts query.now nodes.now (length self.old.firsts.items) self.old.known self.old.firsts.items }
        ensures { OnOk result (KnowsFirsts query.now nodes.now (length self.old.firsts.items + 1) self.new.known self.new.firsts.items) }
    {
        let at = self.firsts.len();
        match self.told(&key) {
            Some(first) => {
                drop(key);
                self.firsts.push(first)?;
            }
            None => {
                self.keep(key, at)?;
                self.firsts.push(at)?;
            }
        }
        Ok(())
    }
}

/// The first blocks of all blocks.
pub fn all_seen(alloc: Global, query: &Query, nodes: &[Node]) -> Result<Seen, NoMemory>
    ensures { IfOk result (λ s. KnowsFirsts query.now nodes.now (length nodes.now) s.known s.firsts.items) }
{
    let mut seen = Seen::new(alloc);
    for node in nodes {
        let key = key_of_node(alloc, query, node)?;
        seen.turn(query, nodes, key)?;
    }
    Ok(seen)
}
