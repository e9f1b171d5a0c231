//! Where names stand: in a list, among columns, among tables.

ghost use Rattle.std.specs.Prelude.{◌≡◌, ◌<◌, ◌≤◌, length};
ghost use Rattle.cqa_value.specs.declared.row.TheConstants.{MOST_COLUMNS};
ghost use Rattle.query_resolve.specs.Names.{name_place, column_named, columns_at};

use cqa_model::Column;
use cqa_value::Name;
use table_blocks::Database;

/// The first place of a name in a list.
pub fn place_of_name(names: &[Name], name: &Name) -> Option<usize>
    ensures { result ≡ name_place names.now name.now }
{
    names.iter().position(|other| *name == *other)
}

/// The first place of a column with a name.
pub fn place_of_column(columns: &[Column], name: &Name) -> Option<usize>
    ensures { result ≡ column_named columns.now name.now }
{
    columns.iter().position(|column| *name == column.name)
}

/// The columns of a table.
pub fn table_columns(db: &Database, table: u32) -> &[Column]
    requires { table < length db.now }
    ensures is { result.now ≡ columns_at db.now table }
    ensures few { length result.now ≤ MOST_COLUMNS }
{
    db.schema(table).columns.as_slice()
}
