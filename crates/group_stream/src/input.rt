//! The reading of a piece.

ghost use Rattle.std.specs.Prelude.{◌≡◌, ◌≤◌, ◌<◌, IfOk, length};
ghost use Rattle.std.specs.Io.KnownBytes.{ReadConsumes};
ghost use Rattle.cqa_io.specs.Causes.{HasCause};

use cqa_io::{Failed, Source};
use std::alloc::{AllocError, Global};

/// A buffer of so many bytes.
pub fn zeros(alloc: Global, count: usize) -> Result<Vec<u8>, AllocError>
    ensures { IfOk result (λ v. length v.items ≡ count) }
{
    vec![in alloc; 0u8; count]
}

/// Reads at most so many bytes into the front of a buffer.
pub fn read_piece<S: Source>(source: &mut S, piece: &mut [u8], most: usize) -> Result<usize, Failed>
    requires piece { 0 < length piece.old }
    requires most { 0 < most }
    ensures within { IfOk result (λ n. (n ≤ most) × (n ≤ length piece.new)) }
    ensures size { length piece.new ≡ length piece.old }
    ensures came { ReadConsumes (S.left source.old) (S.left source.new) result piece.new }
    ensures cause { HasCause (S.faults source.old) (S.faults source.new) result }
{
    let want = piece.len().min(most);
    source.read(&mut piece[..want])
}
