//! Which inputs are certificates.

ghost use Rattle.std.specs.Prelude.{MatchOption};
ghost use Rattle.input_check.specs.Inputs.{IsCertificateText, IsProofText};

/// The bytes behind the first line of a certificate, which is `rewriting`, or that and a carriage return; `None` where an input has
/// another first line, or no line feed.
pub fn certificate_text(bytes: &[u8]) -> Option<&[u8]>
    ensures { MatchOption result (IsProofText bytes.now) (λ text. IsCertificateText bytes.now text.now) }
{
    match bytes.strip_prefix(b"rewriting\n") {
        Some(text) => Some(text),
        None => bytes.strip_prefix(b"rewriting\r\n"),
    }
}
