//! The laws of lines, over the definitions alone. Each is what its function ensures.

ghost use Rattle.group_stream.specs.Cuts.{CutsAreLines};

/// Lines with an LF behind each, and a rest, are the lines of their text.
pub fn cuts_are_lines()
    ensures { CutsAreLines }
{}
