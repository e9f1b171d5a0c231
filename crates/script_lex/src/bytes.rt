//! The sets of bytes that scripts are made of, and the runs of
//! bytes of one set.

ghost use Rattle.std.specs.Prelude.{◌≡◌, ◌≤◌, length, take};
ghost use Rattle.script_lex.specs.Bytes.{test_of, AllPass, Runs};

/// A set of bytes.
#[derive(Clone, Copy)]
pub enum Class {
    Blank,
    LineBlank,
    Letter,
    Digit,
    WordByte,
    NotLineFeed,
    NotQuote,
    /// Neither a quote, nor a dash, nor a `;`.
    Plain,
}

/// Whether a byte is of a class.
pub fn is_in(class: Class, byte: u8) -> bool
    ensures { result ≡ test_of class byte }
{
    match class {
        Class::Blank => byte == b' ' || byte == b'\t' || byte == b'\n' || byte == b'\r',
        Class::LineBlank => byte == b' ' || byte == b'\t' || byte == b'\r',
        Class::Letter => b'A' <= byte && byte <= b'Z'
            || b'a' <= byte && byte <= b'z'
            || byte == b'_',
        Class::Digit => b'0' <= byte && byte <= b'9',
        Class::WordByte => {
            b'A' <= byte && byte <= b'Z'
                || b'a' <= byte && byte <= b'z'
                || byte == b'_'
                || b'0' <= byte && byte <= b'9'
        }
        Class::NotLineFeed => byte != b'\n',
        Class::NotQuote => byte != b'\'',
        Class::Plain => byte != b'\'' && byte != b'-' && byte != b';',
    }
}

/// How many bytes of a class stand first.
pub fn run_length(class: Class, bytes: &[u8]) -> usize
    ensures { Runs class bytes.now result }
{
    for (count, &byte) in bytes.iter().enumerate() {
        if !is_in(class, byte) {
            return count;
        }
    }
    bytes.len()
}

/// How many bytes of a class stand first, where so many are known to.
pub fn run_on(class: Class, bytes: &[u8], known: usize) -> usize
    requires within { known ≤ length bytes.now }
    requires each { AllPass (test_of class) (take known bytes.now) }
    ensures { Runs class bytes.now result }
{
    known + run_length(class, &bytes[known..])
}
