//! Statements that change tables, over the definitions alone. Each law is what its function ensures, so the build proves it.

ghost use Rattle.command_shell.specs.Changing.{CreatesGoOn, AltersGoOn, InsertsGoOn, DeletesGoOn, PrefersGoOn, CopiesGoOn};

/// A `create` of which no check fails makes a table.
pub fn creates_go_on()
    ensures { CreatesGoOn }
{}

/// An `alter` of which no check fails changes a table.
pub fn alters_go_on()
    ensures { AltersGoOn }
{}

/// An `insert` of which no check fails puts its rows into a table.
pub fn inserts_go_on()
    ensures { InsertsGoOn }
{}

/// A `delete` of which no check fails takes rows from a table.
pub fn deletes_go_on()
    ensures { DeletesGoOn }
{}

/// A `prefer` of which no check fails takes rows from a table.
pub fn prefers_go_on()
    ensures { PrefersGoOn }
{}

/// A `copy` whose table is there puts the rows of its block into it, or refuses the block.
pub fn copies_go_on()
    ensures { CopiesGoOn }
{}
