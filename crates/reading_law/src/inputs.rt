//! How an input is cut, over the definitions alone. The law is what its function ensures, so the build proves it.

ghost use Rattle.reading_law.specs.Inputs.{InputsAreCut};

/// Each input has a cut, whether it has ended or not.
pub fn inputs_are_cut()
    ensures { InputsAreCut }
{}
