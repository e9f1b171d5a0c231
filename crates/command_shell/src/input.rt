//! The reading of the input.

ghost use Rattle.std.specs.Prelude.{◌≡◌, ◌≤◌, ◌<◌, ℕ, List, [], IfOk, length};
ghost use Rattle.std.specs.Io.KnownBytes.{Consumes, IsAtEnd, ReadConsumes};
ghost use Rattle.cqa_io.specs.Causes.{HasCause, Rose};
ghost use Rattle.command_shell.specs.Parts.{ReadRow};

use crate::ending::ReadEnd;
use cqa_io::{Failed, Source};
use cqa_model::LONGEST_INPUT;
use std::alloc::{AllocError, Global};

/// How many bytes a read asks for, where so many are allowed.
pub const PIECE: usize = 65_536;

/// A buffer of so many bytes.
pub fn zeros(alloc: Global, count: usize) -> Result<Vec<u8>, AllocError>
    ensures { IfOk result (λ v. length v.items ≡ count) }
{
    vec![in alloc; 0u8; count]
}

/// Reads at most so many bytes into the front of a buffer.
pub fn read_piece<S: Source>(source: &mut S, piece: &mut [u8], most: usize) -> Result<usize, Failed>
    requires piece { 0 < length piece.old }
    requires most { 0 < most }
    ensures within { IfOk result (λ n. (n ≤ most) × (n ≤ length piece.new)) }
    ensures size { length piece.new ≡ length piece.old }
    ensures came { ReadConsumes (S.left source.old) (S.left source.new) result piece.new }
    ensures cause { HasCause (S.faults source.old) (S.faults source.new) result }
{
    let want = piece.len().min(most);
    source.read(&mut piece[..want])
}

/// Reads to the end, to a fault, or one byte past the limit.
pub fn read_all<S: Source>(alloc: Global, source: &mut S, input: &mut Vec<u8>) -> ReadEnd
    requires { input.old.items ≡ [] }
    ensures took { (came : List ℕ) × Consumes (S.left source.old) (S.left source.new) came
        × ReadRow result (IsAtEnd (S.left source.new)) (Rose (S.faults source.old) (S.faults source.new)) came input.new.items }
    ensures later { S.faults source.old ≤ S.faults source.new }
{
    match zeros(alloc, PIECE) {
        Err(_) => ReadEnd::OutOfMemory,
        Ok(mut piece) => read_by(source, input, piece.as_mut_slice()),
    }
}

/// Reads by pieces as long as a buffer.
fn read_by<S: Source>(source: &mut S, input: &mut Vec<u8>, piece: &mut [u8]) -> ReadEnd
    requires empty { input.old.items ≡ [] }
    requires piece { 0 < length piece.old }
    ensures took { (came : List ℕ) × Consumes (S.left source.old) (S.left source.new) came
        × ReadRow result (IsAtEnd (S.left source.new)) (Rose (S.faults source.old) (S.faults source.new)) came input.new.items }
    ensures later { S.faults source.old ≤ S.faults source.new }
{
    while input.len() <= LONGEST_INPUT {
        match read_piece(source, piece, LONGEST_INPUT + 1 - input.len()) {
            Err(Failed) => return ReadEnd::Fault,
            Ok(0) => return ReadEnd::End,
            Ok(count) => {
                if input.extend_from_slice(&piece[..count]).is_err() {
                    return ReadEnd::OutOfMemory;
                }
            }
        }
    }
    ReadEnd::TooLong
}
