//! The laws of the text of a certificate, over the definitions alone. Each is what its function ensures, so the build proves it.

ghost use Rattle.rewrite_check.specs.Queries.{QueryOnce, SameQueries};
ghost use Rattle.rewrite_check.specs.Laws.{ChecksOnce, LeadsOnce, VerifiedProves};

/// A select has one query over a database.
pub fn query_once()
    ensures { QueryOnce }
{}

/// The queries of a select over two databases differ in the places of their tables alone.
pub fn same_queries()
    ensures { SameQueries }
{}

/// A statement leads on to one stage at most.
pub fn leads_once()
    ensures { LeadsOnce }
{}

/// At most one thing is said of bytes.
pub fn checks_once()
    ensures { ChecksOnce }
{}

/// Bytes that are verified show that their row is certain in every database that has their blocks.
pub fn verified_proves()
    ensures { VerifiedProves }
{}
