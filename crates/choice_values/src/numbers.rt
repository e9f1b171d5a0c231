//! Sums that may not pass `i128`.

ghost use Rattle.std.specs.Prelude.{◌≡◌, ◌+ℤ◌, IfOk, neg_ℤ};

use crate::best::Fault;

/// Two numbers are added.
///
/// # Errors
///
/// `Spent` where the sum is past `i128`.
pub fn both(a: i128, b: i128) -> Result<i128, Fault>
    ensures { IfOk result (λ sum. sum ≡ a +ℤ b) }
{
    match a.checked_add(b) {
        Some(sum) => Ok(sum),
        None => Err(Fault::Spent),
    }
}

/// The negative of a number.
///
/// # Errors
///
/// `Spent` where it is past `i128`.
pub fn negative(n: i128) -> Result<i128, Fault>
    ensures { IfOk result (λ turned. turned ≡ neg_ℤ n) }
{
    match 0i128.checked_sub(n) {
        Some(turned) => Ok(turned),
        None => Err(Fault::Spent),
    }
}
