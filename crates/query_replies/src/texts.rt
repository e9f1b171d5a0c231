//! The plan of a query in SQL.

ghost use Rattle.std.specs.Prelude.{IfOk, IfSome, IsNone};
ghost use Rattle.cqa_model.specs.Plan.{IsPlanOf};
ghost use Rattle.cqa_model.specs.Variables.{whole};
ghost use Rattle.cqa_model.specs.Graph.{HasCycle};
ghost use Rattle.query_replies.specs.Names.{query_names};
ghost use Rattle.query_replies.specs.Sql.{IsSqlOf};

use crate::names::{columns_of, copied};
use cqa_model::{Plan, Query};
use cqa_value::{Items, Name, NoMemory};
use fo_rewrite::plan_in;
use key_closure::{Named, View};
use plan_sql::sql_of;
use sql_text::{Names, append_sql};
use std::alloc::Global;
use table_blocks::Bound;

/// The plan in SQL of a query whose tables have these names, or nothing where it has no plan.
///
/// # Errors
///
/// `NoMemory` where memory is refused.
pub fn sql_of_query(
    alloc: Global,
    bound: &Bound<'_>,
    tables: &[Name],
) -> Result<Option<Items<u8>>, NoMemory>
    ensures sql { IfOk result (λ found. IfSome found (IsSqlOf bound.now.query.now (query_names bound.now.db.now tables.now bound.now.query.now))) }
    ensures none { IfOk result (λ found. IsNone found → HasCycle bound.now.query.now (whole bound.now.query.now)) }
{
    let named = Named {
        query: bound.query,
        variables: &bound.variables,
        view: View::whole(bound.query),
    };
    let Some(plan) = plan_in(alloc, &named)? else {
        return Ok(None);
    };
    let text = text_of(alloc, bound, tables, &plan);
    drop(plan);
    Ok(Some(text?))
}

/// The text of a plan in SQL.
fn text_of(
    alloc: Global,
    bound: &Bound<'_>,
    tables: &[Name],
    plan: &Plan,
) -> Result<Items<u8>, NoMemory>
    requires { IsPlanOf bound.now.query.now plan.now.order }
    ensures { IfOk result (IsSqlOf bound.now.query.now (query_names bound.now.db.now tables.now bound.now.query.now)) }
{
    let columns = columns_of(alloc, bound)?;
    let tables = copied(alloc, tables)?;
    let names = Names { tables, columns };
    let text = written(alloc, bound.query, plan, &names);
    drop(names);
    text
}

/// The text of a plan in SQL, with these names.
fn written(alloc: Global, query: &Query, plan: &Plan, names: &Names) -> Result<Items<u8>, NoMemory>
    requires { IsPlanOf query.now plan.now.order }
    ensures { IfOk result (IsSqlOf query.now names.now) }
{
    let sql = sql_of(alloc, query, plan)?;
    let mut text = Vec::new(alloc);
    let wrote = append_sql(query, names, &sql, &mut text);
    drop(sql);
    wrote?;
    Ok(Items::from_vec(text))
}
