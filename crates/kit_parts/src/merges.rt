//! Laws of the merge of parts by grant time and federate.

ghost use Rattle.kit_parts.specs.Merging.{OneMerge, PartsMerge, PartsMakeTheText, PartsArePart};

/// There is one list of blocks in the order of grant time and federate that has given parts.
pub fn one_merge()
    ensures { OneMerge }
{}

/// The simulation's blocks are the merge of its parts.
pub fn parts_merge()
    ensures { PartsMerge }
{}

/// The merge of all parts and the variables that they leave make the simulation's text.
pub fn parts_make_the_text()
    ensures { PartsMakeTheText }
{}

/// The parts of the simulation are blocks of their federates whose times rise.
pub fn parts_are_part()
    ensures { PartsArePart }
{}
