//! The blocks of a certificate.

ghost use Rattle.std.specs.Prelude.{◌≡◌, ◌≤◌, ◌<◌, ◌^◌, ◌↔◌, None, IfOk, IfSome, OnOk, IfErr, IsTrue, MatchOption, length, unwrap_or};
ghost use Rattle.cqa_model.specs.declared.limits.TheConstants.{LONGEST_INPUT};
ghost use Rattle.script_lex.specs.Tokens.{Spells, longest_text};
ghost use Rattle.spj_syntax.specs.Limits.{most_items};
ghost use Rattle.refusals.specs.Kinds.{rows_fault};
ghost use Rattle.table_blocks.specs.Tables.{kinds_at};
ghost use Rattle.query_resolve.specs.Names.{name_place};
ghost use Rattle.spj_syntax.specs.declared.tree.RawBlock.{RawBlock as Raw};
ghost use Rattle.spj_syntax.specs.Texts.{IsBlockText};
ghost use Rattle.rewrite_check.specs.Spelling.{CanList, LeadsOn, Ordered, Stage, node_of};
ghost use Rattle.rewrite_check.specs.Reading.{GoesFrom, IfRefused, IsAtEnd, IsBadStatement};

use crate::certificate::Certificate;
use crate::opening::tokens_of;
use crate::order::place_of_name;
use crate::script::Script;
use block_tree::Node;
use cqa_value::{Fail, Name, NoMemory, Row};
use script_lex::Token;
use spj_syntax::{RawBlock, parse_block};
use std::alloc::Global;
use table_blocks::Database;
use table_changes::rows_fault_of;

/// The block that the tokens of a text are, where they are one.
fn parsed_block(alloc: Global, text: &[u8], tokens: &[Token]) -> Result<Option<RawBlock>, NoMemory>
    requires spelled { Spells text.now tokens.now }
    requires short { length text.now ≤ longest_text }
    ensures is { IfOk result (λ found. MatchOption found ((other : Raw) → IsBlockText text.now other → ⊥) (IsBlockText text.now)) }
    ensures few { IfOk result (λ found. IfSome found (λ raw. length raw.rows ≤ most_items)) }
{
    match parse_block(alloc, text, tokens) {
        Ok(raw) => Ok(Some(raw)),
        Err(Fail::NoMemory) => Err(NoMemory),
        Err(Fail::Refused(_)) => Ok(None),
    }
}

/// The block that a text is, where it is one.
fn block_of(alloc: Global, text: &[u8]) -> Result<Option<RawBlock>, NoMemory>
    ensures is { IfOk result (λ found. MatchOption found ((other : Raw) → IsBlockText text.now other → ⊥) (IsBlockText text.now)) }
    ensures few { IfOk result (λ found. IfSome found (λ raw. length raw.rows ≤ most_items)) }
{
    match tokens_of(alloc, text)? {
        Some(tokens) => parsed_block(alloc, text, tokens.as_slice()),
        None => Ok(None),
    }
}

/// Whether rows fit the columns of a table.
fn fit(tables: &Database, table: u32, rows: &[Row]) -> bool
    requires there { table < length tables.now }
    requires few { length rows.now ≤ most_items }
    ensures { IsTrue result ↔ (rows_fault (kinds_at tables.now table) 1 rows.now ≡ None) }
{
    match rows_fault_of(tables.schema(table), rows) {
        Some(fault) => {
            drop(fault);
            false
        }
        None => true,
    }
}

/// Whether a block can be listed: its table is one of those created, and its rows fit this table's columns.
fn can_list(tables: &Database, raw: &RawBlock) -> bool
    requires { length raw.now.rows ≤ most_items }
    ensures { IsTrue result ↔ CanList tables.now raw.now }
{
    match tables.find(&raw.table) {
        Some(table) => fit(tables, table, raw.rows.as_slice()),
        None => false,
    }
}

/// The place of a table's name among those of a query, which is the atom of its blocks; else a place behind them all.
fn atom_of(tables: &[Name], table: &Name) -> u32
    requires { length tables.now < 2 ^ 32 }
    ensures { result ≡ unwrap_or (name_place tables.now table.now) (length tables.now) }
{
    place_of_name(tables, table).unwrap_or(tables.len()) as u32
}

/// A block as a node of the tree.
fn as_node(certificate: &Certificate, raw: RawBlock) -> Node
    requires { length certificate.now.select.tables < 2 ^ 32 }
    ensures { result ≡ node_of certificate.now raw }
{
    let RawBlock { table, rows } = raw;
    let atom = atom_of(certificate.select.tables.as_slice(), &table);
    drop(table);
    Node { atom, rows }
}

/// The node of the block that a text is, where it can be listed.
fn node(alloc: Global, certificate: &Certificate, text: &[u8]) -> Result<Option<Node>, NoMemory>
    requires { length certificate.now.select.tables < 2 ^ 32 }
    ensures { IfOk result (λ found. MatchOption found ((raw : Raw) → IsBlockText text.now raw → CanList certificate.now.tables raw → ⊥) (λ node. (raw : Raw) × IsBlockText text.now raw × CanList certificate.now.tables raw × (node ≡ node_of certificate.now raw))) }
{
    match block_of(alloc, text)? {
        Some(raw) => {
            if can_list(&certificate.tables, &raw) {
                return Ok(Some(as_node(certificate, raw)));
            }
            drop(raw);
            Ok(None)
        }
        None => Ok(None),
    }
}

/// Lists the node of a block's text.
///
/// # Errors
///
/// The statement's number where it is no block that can be listed.
fn list(
    alloc: Global,
    certificate: &mut Certificate,
    text: &[u8],
    number: u32,
) -> Result<(), Fail<u32>>
    requires { length certificate.old.select.tables < 2 ^ 32 }
    ensures leads { OnOk result (LeadsOn (Ordered certificate.old) text.now (Ordered certificate.new)) }
    ensures bad { IfErr result (IfRefused (λ n. (n ≡ number) × ((next : Stage) → LeadsOn (Ordered certificate.old) text.now next → ⊥))) }
    ensures query { certificate.new.select ≡ certificate.old.select }
{
    match node(alloc, certificate, text)? {
        Some(node) => {
            certificate.nodes.push(node)?;
            Ok(())
        }
        None => Err(Fail::Refused(number)),
    }
}

/// Reads the blocks up to the end, and lists their nodes.
///
/// # Errors
///
/// The number of the first statement that is no block that can be listed, or of the next one where the end isn't blank.
pub fn nodes(
    alloc: Global,
    script: &mut Script<'_>,
    certificate: &mut Certificate,
) -> Result<(), Fail<u32>>
    requires { length certificate.old.select.tables < 2 ^ 32 }
    ensures leads { OnOk result (GoesFrom (Ordered certificate.old) script.old (Ordered certificate.new) script.new × IsAtEnd script.new) }
    ensures bad { IfErr result (IfRefused (IsBadStatement (Ordered certificate.old) script.old)) }
    ensures few { OnOk result (script.new.before ≤ LONGEST_INPUT) }
{
    while let Some(text) = script.next_text()? {
        list(alloc, certificate, text, script.before())?;
    }
    Ok(())
}
