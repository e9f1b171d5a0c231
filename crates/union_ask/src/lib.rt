//! Unions of queries: a row is certain for one if every repair holds a witness of it for some part, not the same one in each. The
//! candidates of the parts, the formula of a row over the union's tables, the repair of a model of it, the certain rows, and why
//! one row is certain or isn't. A row is decided by what is known of the parts alone, by a plan or over pairs of rows, or by its
//! formula. A query that needs a search is a union of one part, over its tables in the order of its atoms. Which method serves a
//! query is chosen here for all statements that answer rows.
#![tactic(auto)]

mod candidates;
mod encoding;
mod frame;
mod judging;
mod known;
mod laws;
mod method;
mod query_decision;
mod query_reason;
mod query_search;
mod reason;
mod repair;
mod search;
mod sharing;

pub use candidates::union_candidates;
pub use encoding::union_encode;
pub use laws::{
    alone_decides, apart_decide, candidates_decide, model_rejects, possible_is_candidate_in,
    union_model_rejects, unions_decide,
};
pub use method::strategy_over;
pub use query_decision::decide;
pub use query_reason::reason_by_search;
pub use query_search::rows_by_search;
pub use reason::decide_union;
pub use repair::{UnionKept, union_repair};
pub use search::certain_of_union;
