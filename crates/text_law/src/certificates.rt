//! The law of certificates that are replied to a `prove`, over the definitions alone, those of the machine among them. It is what its
//! function ensures, so the build proves it.

ghost use Rattle.text_law.specs.Proved.{ProvedIsVerified};

/// Where a valid state may reply a certificate to a `prove`, the certificate is verified.
pub fn proved_is_verified()
    ensures { ProvedIsVerified }
{}
