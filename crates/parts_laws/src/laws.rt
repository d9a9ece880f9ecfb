//! Each law is the contract of a function that does nothing.
ghost use Rattle.parts_laws.specs.Laws.{EachItsPart, PickedIsAll, PickedIsWhole, MarksPicked};

/// A part prints what the whole run prints for its texts, and leaves what the whole run leaves under its names.
pub fn each_its_part<Name, Set, Text, Out>()
    ensures { EachItsPart Name Set Text Out }
{}

/// What is picked from the parts key by key, in the order of the whole, is the whole; and so it is with what is shown of it.
pub fn picked_is_all<Key, Value, Shown>()
    ensures { PickedIsAll Key Value Shown }
{}

/// Text by text, and name by name, the whole run is picked from the parts.
pub fn picked_is_whole<Name, Set, Text, Out>()
    ensures { PickedIsWhole Name Set Text Out }
{}

/// Where memory breaks turns off in the parts, there are marks for the whole run with which it is picked from the parts.
pub fn marks_picked<Name, Set, Text, Out, Mark>()
    ensures { MarksPicked Name Set Text Out Mark }
{}
