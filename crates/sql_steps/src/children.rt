//! Parts that hang on an atom, as sources joined to its rows.

ghost use Rattle.std.specs.Prelude.{◌≡◌, ◌++◌, ◌∷◌, ◌<◌, ◌≤◌, ◌&&◌, ◌||◌, [], IfOk, OnOk, length, not};
ghost use Rattle.std.specs.List.{filter};
ghost use Rattle.sql_steps.specs.declared.part.Part.{Part as PartValue};
ghost use Rattle.sql_steps.specs.Variables.{covers, meets};
ghost use Rattle.sql_steps.specs.Steps.{are_single, children_of, hangs, known_of, part_source, see_part};

use crate::fitting::{Fitting, Known};
use crate::lists::{covers, meets, without};
use crate::part::Part;
use crate::shape::Shape;
use cqa_value::{Items, NoMemory};
use sql_text::{Alias, Child, Listed, Source};
use std::alloc::Global;

/// Children, and what is known behind them.
#[derive(Drop)]
pub struct Joined {
    pub children: Items<Child>,
    pub known: Items<Known>,
}

/// The step of a part as a source.
fn part_source(part: &Part) -> Listed
    ensures { result ≡ part_source part.now }
{
    Listed {
        source: Source::Step(part.step),
        alias: Alias::Held(part.number),
    }
}

/// A part's context at a place is compared with what is known, or is known from then on.
fn see_part(alloc: Global, place: usize, part: &Part, known: &[Known]) -> Result<Fitting, NoMemory>
    ensures { IfOk result (λ fitting. fitting ≡ see_part place part.now known.now) }
{
    let known = Items::from_slice(alloc, known)?;
    let all = Items::new(alloc);
    let mut fitting = Fitting { known, all };
    match fitting.see_source(part.columns.as_slice(), place) {
        Ok(()) => Ok(fitting),
        Err(refused) => {
            drop(fitting);
            Err(refused)
        }
    }
}

impl Joined {
    /// Adds a part at a place.
    fn add(&mut self, alloc: Global, place: usize, part: &Part) -> Result<(), NoMemory>
        ensures children { OnOk result (self.new.children ≡ self.old.children ++ record { listed = part_source part.now; on = (see_part place part.now self.old.known).all } ∷ []) }
        ensures known { OnOk result (self.new.known ≡ (see_part place part.now self.old.known).known) }
    {
        let seen = see_part(alloc, place, part, self.known.as_slice())?;
        self.known = seen.known;
        self.children.push(Child {
            listed: part_source(part),
            on: seen.all,
        })
    }

    /// Adds parts, from a place on.
    fn add_all(&mut self, alloc: Global, place: usize, parts: &[Part]) -> Result<(), NoMemory>
        requires { place ≤ 2 }
        ensures children { OnOk result (self.new.children ≡ self.old.children ++ children_of place parts.now self.old.known) }
        ensures known { OnOk result (self.new.known ≡ known_of place parts.now self.old.known) }
    {
        for (before, part) in parts.iter().enumerate() {
            self.add(alloc, place + before, part)?;
        }
        Ok(())
    }
}

/// These parts as children, from a place on, and what is known behind them.
///
/// # Errors
///
/// `NoMemory` where memory is refused.
pub fn joined_parts(
    alloc: Global,
    place: usize,
    parts: &[Part],
    known: &[Known],
) -> Result<Joined, NoMemory>
    requires { place ≤ 2 }
    ensures children { IfOk result (λ joined. joined.children ≡ children_of place parts.now known.now) }
    ensures known { IfOk result (λ joined. joined.known ≡ known_of place parts.now known.now) }
{
    let known = Items::from_slice(alloc, known)?;
    let children = Items::new(alloc);
    let mut joined = Joined { children, known };
    match joined.add_all(alloc, place, parts) {
        Ok(()) => Ok(joined),
        Err(refused) => {
            drop(joined);
            Err(refused)
        }
    }
}

/// Whether a part has no variable but these, or no two contexts with the same key, which has none but these.
fn is_single(vs: &[u32], part: &Part) -> bool
    ensures { result ≡ (covers vs.now part.now.columns || (part.now.single && covers vs.now part.now.keys)) }
{
    covers(vs, part.columns.as_slice()) || (part.single && covers(vs, part.keys.as_slice()))
}

/// Whether each of these parts has one context at most, for values of these variables and of the parts before it.
///
/// # Errors
///
/// `NoMemory` where memory is refused.
pub fn are_single(alloc: Global, vs: &[u32], parts: &[Part]) -> Result<bool, NoMemory>
    ensures { IfOk result (λ single. single ≡ are_single vs.now parts.now) }
{
    let mut seen = Vec::from_slice(alloc, vs)?;
    for part in parts {
        if !is_single(seen.as_slice(), part) {
            return Ok(false);
        }
        seen.extend_from_slice(part.columns.as_slice())?;
    }
    Ok(true)
}

impl Part {
    /// A copy.
    fn copy(&self, alloc: Global) -> Result<Part, NoMemory>
        ensures { IfOk result (λ part. part ≡ self.now) }
    {
        let columns = Items::from_slice(alloc, self.columns.as_slice())?;
        let keys = Items::from_slice(alloc, self.keys.as_slice())?;
        Ok(Part {
            number: self.number,
            step: self.step,
            columns,
            keys,
            single: self.single,
            rare: self.rare,
        })
    }
}

/// Appends the parts that have one of these variables.
fn append_with(
    alloc: Global,
    vs: &[u32],
    parts: &[Part],
    list: &mut Items<Part>,
) -> Result<(), NoMemory>
    ensures { OnOk result (list.new ≡ list.old ++ filter (λ (p : PartValue). meets p.columns vs.now) parts.now) }
{
    for part in parts {
        if meets(part.columns.as_slice(), vs) {
            list.push(part.copy(alloc)?)?;
        }
    }
    Ok(())
}

/// Appends the parts that have none of these variables.
fn append_without(
    alloc: Global,
    vs: &[u32],
    parts: &[Part],
    list: &mut Items<Part>,
) -> Result<(), NoMemory>
    ensures { OnOk result (list.new ≡ list.old ++ filter (λ (p : PartValue). not (meets p.columns vs.now)) parts.now) }
{
    for part in parts {
        if !meets(part.columns.as_slice(), vs) {
            list.push(part.copy(alloc)?)?;
        }
    }
    Ok(())
}

/// Appends the parts that hang on an atom.
fn append_hanging(
    alloc: Global,
    shape: &Shape<'_>,
    known: &[u32],
    atom: u32,
    parts: &[Part],
    list: &mut Items<Part>,
) -> Result<(), NoMemory>
    requires { atom < length shape.now.query.now.atoms }
    ensures { OnOk result (list.new ≡ list.old ++ filter (λ (p : PartValue). hangs shape.now.query.now known.now atom p) parts.now) }
{
    let vs = without(alloc, shape.of(atom), known)?;
    append_with(alloc, vs.as_slice(), parts, list)
}

/// The parts that hang on an atom.
///
/// # Errors
///
/// `NoMemory` where memory is refused.
pub fn hanging(
    alloc: Global,
    shape: &Shape<'_>,
    known: &[u32],
    atom: u32,
    parts: &[Part],
) -> Result<Items<Part>, NoMemory>
    requires { atom < length shape.now.query.now.atoms }
    ensures { IfOk result (λ list. list ≡ filter (λ (p : PartValue). hangs shape.now.query.now known.now atom p) parts.now) }
{
    let mut list = Items::new(alloc);
    match append_hanging(alloc, shape, known, atom, parts, &mut list) {
        Ok(()) => Ok(list),
        Err(refused) => {
            drop(list);
            Err(refused)
        }
    }
}

/// Appends the parts that don't hang on an atom.
///
/// # Errors
///
/// `NoMemory` where memory is refused.
pub fn append_beside(
    alloc: Global,
    shape: &Shape<'_>,
    known: &[u32],
    atom: u32,
    parts: &[Part],
    list: &mut Items<Part>,
) -> Result<(), NoMemory>
    requires { atom < length shape.now.query.now.atoms }
    ensures { OnOk result (list.new ≡ list.old ++ filter (λ (p : PartValue). not (hangs shape.now.query.now known.now atom p)) parts.now) }
{
    let vs = without(alloc, shape.of(atom), known)?;
    append_without(alloc, vs.as_slice(), parts, list)
}
