//! Guesses of places among marks. Nothing is promised of them: who uses one looks whether it is right.

/// Whether a mark is below another one, or no greater.
pub fn comes_before(mark: u64, other: u64, with_ties: bool) -> bool {
    mark < other || with_ties && mark == other
}

/// The first of some marks, or 0.
pub fn first_of(marks: &[u64]) -> u64 {
    *marks.first().unwrap_or(&0)
}

/// The first mark once another one is put in at a place.
pub fn first_with(first: u64, at: usize, mark: u64) -> u64 {
    if at == 0 { mark } else { first }
}

/// About how many of so many marks are below one, if they go up evenly from a first one to a last one.
fn share_of(count: usize, first: u64, last: u64, mark: u64) -> usize {
    let whole = last.saturating_sub(first);
    let part = mark.saturating_sub(first).min(whole);
    let spare = 40u32.saturating_sub(whole.leading_zeros());
    let scaled = (part >> spare).saturating_mul(count as u64);
    (scaled / (whole >> spare).max(1)) as usize
}

/// How many marks come before one, if they never fall and at least so many do.
fn risen(marks: &[u64], from: usize, mark: u64, with_ties: bool) -> usize {
    for at in from..marks.len() {
        if !comes_before(marks[at], mark, with_ties) {
            return at;
        }
    }
    marks.len()
}

/// How many marks come before one, if they never fall and at most so many do.
fn fallen(marks: &[u64], from: usize, mark: u64, with_ties: bool) -> usize {
    for gone in 0..from {
        let at = from - gone;
        match marks.get(at - 1) {
            Some(other) if !comes_before(*other, mark, with_ties) => {}
            _ => return at,
        }
    }
    0
}

/// How many marks come before one, if they never fall: from where it would stand if they went up evenly to a last one.
pub fn place_among(marks: &[u64], first: u64, last: u64, mark: u64, with_ties: bool) -> usize {
    let from = share_of(marks.len(), first, last, mark);
    fallen(marks, risen(marks, from, mark, with_ties), mark, with_ties)
}
