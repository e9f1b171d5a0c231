//! Laws of cuts: there is one, and what follows an input doesn't
//! change it.

ghost use Rattle.script_lex.specs.Scripts.{AtMostOneCut, CutsGoOn};

/// At most one cut exists for an input and its end.
pub fn cut_is_unique()
    ensures { AtMostOneCut }
{}

/// The statements of a part of an input are the first of the whole.
pub fn cut_goes_on()
    ensures { CutsGoOn }
{}
