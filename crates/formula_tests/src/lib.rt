//! Tests of what neither a clause nor a script shows of formulas: that they are decided with ample memory, small ones and long ones,
//! with the answer that was worked out by hand, or by another program.
#![tactic(auto)]

#[cfg(test)]
mod formulas;
#[cfg(test)]
mod guesses;
