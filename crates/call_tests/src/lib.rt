//! Tests of calls that no script reaches, and of what no reply shows: a writer that is flushed, blocks of CSV, cursors over rows
//! and blocks, look-ups in many rows, what is said of a query's atoms, whether a row holds by a plan, the order in which atoms are
//! taken, the places of a witness's rows, short lists, and the ends of values of lists with weights. Each call succeeds with ample memory, and with the answer that was
//! worked out by hand.
#![tactic(auto)]

#[cfg(test)]
mod atoms;
#[cfg(test)]
mod csv_blocks;
#[cfg(test)]
mod cursors;
#[cfg(test)]
mod devices;
#[cfg(test)]
mod holding;
#[cfg(test)]
mod making;
#[cfg(test)]
mod many;
#[cfg(test)]
mod orders;
#[cfg(test)]
mod tables;
#[cfg(test)]
mod values;
#[cfg(test)]
mod witnesses;
