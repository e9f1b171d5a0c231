//! The order of a certificate's atoms.

ghost use Rattle.std.specs.Prelude.{◌≡◌, ◌≤◌, ◌<◌, ◌^◌, ◌↔◌, ℕ, List, [], Some, false, IfOk, IfErr, IsTrue, Contains, MatchOption, length};
ghost use Rattle.std.specs.List.{AllZip};
ghost use Rattle.cqa_model.specs.Database.{Table};
ghost use Rattle.cqa_model.specs.Shape.{AreDistinct};
ghost use Rattle.script_lex.specs.Tokens.{Spells, longest_text};
ghost use Rattle.query_resolve.specs.Names.{name_place};
ghost use Rattle.spj_syntax.specs.Texts.{IsOrderText};
ghost use Rattle.rewrite_check.specs.Spelling.{IsOrderBy, Ordered};
ghost use Rattle.rewrite_check.specs.Reading.{GoesFrom, IfRefused, IsBadStatement, asked_stage, certificate_of};

use crate::certificate::Claim;
use crate::opening::tokens_of;
use crate::script::Script;
use cqa_value::{Fail, Items, Name, NoMemory};
use script_lex::Token;
use spj_syntax::parse_order;
use std::alloc::Global;

/// The names of the order that the tokens of a text are, where they are one.
fn parsed_order(
    alloc: Global,
    text: &[u8],
    tokens: &[Token],
) -> Result<Option<Items<Name>>, NoMemory>
    requires spelled { Spells text.now tokens.now }
    requires short { length text.now ≤ longest_text }
    ensures { IfOk result (λ found. MatchOption found ((other : List (List ℕ)) → IsOrderText text.now other → ⊥) (IsOrderText text.now)) }
{
    match parse_order(alloc, text, tokens) {
        Ok(names) => Ok(Some(names)),
        Err(Fail::NoMemory) => Err(NoMemory),
        Err(Fail::Refused(_)) => Ok(None),
    }
}

/// The names of the order that a text is, where it is one.
fn order_names(alloc: Global, text: &[u8]) -> Result<Option<Items<Name>>, NoMemory>
    ensures { IfOk result (λ found. MatchOption found ((other : List (List ℕ)) → IsOrderText text.now other → ⊥) (IsOrderText text.now)) }
{
    match tokens_of(alloc, text)? {
        Some(tokens) => parsed_order(alloc, text, tokens.as_slice()),
        None => Ok(None),
    }
}

/// The first place of a name in a list.
pub fn place_of_name(names: &[Name], name: &Name) -> Option<usize>
    ensures { result ≡ name_place names.now name.now }
{
    names.iter().position(|other| *name == *other)
}

/// The place of a name among a query's tables, where it is one of these and isn't in the order yet.
fn new_place(tables: &[Name], name: &Name, order: &[u32]) -> Option<u32>
    requires { length tables.now < 2 ^ 32 }
    ensures { MatchOption result ((place : ℕ) → name_place tables.now name.now ≡ Some place → Contains order.now place) (λ place. (name_place tables.now name.now ≡ Some place) × (Contains order.now place → ⊥)) }
{
    let place = place_of_name(tables, name)? as u32;
    if order.contains(&place) {
        return None;
    }
    Some(place)
}

/// Adds the places of names among a query's tables, and says whether each name is one of these and none stands twice.
fn add_places(order: &mut Vec<u32>, tables: &[Name], names: &[Name]) -> Result<bool, NoMemory>
    requires empty { order.old.items ≡ [] }
    requires few { length tables.now < 2 ^ 32 }
    ensures added { IfOk result (λ all. IsTrue all → AllZip (λ n F. name_place tables.now n ≡ Some F) names.now order.new.items × AreDistinct order.new.items) }
    ensures none { IfOk result (λ all. (all ≡ false) → (other : List ℕ) → AllZip (λ n F. name_place tables.now n ≡ Some F) names.now other → AreDistinct other → ⊥) }
{
    for name in names {
        match new_place(tables, name, order.as_slice()) {
            Some(place) => order.push(place)?,
            None => return Ok(false),
        }
    }
    Ok(true)
}

/// Whether an order has each atom.
fn has_each(order: &[u32], atoms: u32) -> bool
    ensures { IsTrue result ↔ ((atom : ℕ) → atom < atoms → Contains order.now atom) }
{
    for atom in 0..atoms {
        if !order.contains(&atom) {
            return false;
        }
    }
    true
}

/// The places of names among the tables of a claim's query, where each of these is named once and nothing else.
fn order_by(alloc: Global, claim: &Claim, names: &[Name]) -> Result<Option<Items<u32>>, NoMemory>
    requires { length claim.now.select.tables ≡ length claim.now.query.atoms }
    ensures { IfOk result (λ found. MatchOption found ((other : List ℕ) → IsOrderBy claim.now.select claim.now.query names.now other → ⊥) (IsOrderBy claim.now.select claim.now.query names.now)) }
{
    let mut order = Vec::new(alloc);
    let added = add_places(&mut order, claim.select.tables.as_slice(), names);
    let whole = has_each(order.as_slice(), claim.query.atoms.len() as u32);
    if added? && whole {
        return Ok(Some(Items::from_vec(order)));
    }
    drop(order);
    Ok(None)
}

/// The order that a text is, of the tables of a claim's query.
fn order_of(alloc: Global, claim: &Claim, text: &[u8]) -> Result<Option<Items<u32>>, NoMemory>
    requires { length claim.now.select.tables ≡ length claim.now.query.atoms }
    ensures { IfOk result (λ found. MatchOption found ((names : List (List ℕ)) (other : List ℕ) → IsOrderText text.now names → IsOrderBy claim.now.select claim.now.query names other → ⊥) (λ order. (names : List (List ℕ)) × IsOrderText text.now names × IsOrderBy claim.now.select claim.now.query names order)) }
{
    match order_names(alloc, text)? {
        Some(names) => {
            let order = order_by(alloc, claim, names.as_slice());
            drop(names);
            order
        }
        None => Ok(None),
    }
}

/// Reads the order of the tables of a claim's query.
///
/// # Errors
///
/// The number of the statement that is due, where it is missing or no such order.
pub fn order(alloc: Global, script: &mut Script<'_>, claim: &Claim) -> Result<Items<u32>, Fail<u32>>
    requires { length claim.now.select.tables ≡ length claim.now.query.atoms }
    ensures leads { IfOk result (λ order. (db : List Table) → GoesFrom (asked_stage db claim.now) script.old (Ordered (certificate_of db claim.now order)) script.new) }
    ensures bad { IfErr result (IfRefused (λ n. (db : List Table) → IsBadStatement (asked_stage db claim.now) script.old n)) }
{
    let text = script.due_text()?;
    match order_of(alloc, claim, text)? {
        Some(order) => Ok(order),
        None => Err(Fail::Refused(script.before())),
    }
}
