//! What the text of a map has.

ghost use Rattle.map_text.specs.Laws.{EachHasLine};

/// Where there are as many owners as instructions, as of the object of a graph, each instruction has a line, with its owner.
pub fn each_instruction_has_a_line()
    ensures { EachHasLine }
{}
