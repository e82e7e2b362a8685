//! What can be read back from the text. The functions have empty bodies.

ghost use Rattle.sect_c.specs.Telling.{LabelsTellPlaces};
ghost use Rattle.sect_c.specs.{Back.{TablesTellKeys, LinesTellNodes, LinesTellGraphs, LooksTellLocks}};
ghost use Rattle.sect_c.specs.Whole.{TextsTellPrograms};

/// In the text of a thread two places with one label are one: so each jump leads to one node.
pub fn labels_tell_places()
    ensures { LabelsTellPlaces }
{}

/// Two tables of keys with one text are of one section, and are one list of keys with their modes.
pub fn tables_tell_keys()
    ensures { TablesTellKeys }
{}

/// Two nodes with one text do the same, and go on to the same nodes.
pub fn lines_tell_nodes()
    ensures { LinesTellNodes }
{}

/// Two graphs with one text have nodes that do the same and go on to the same nodes.
pub fn lines_tell_graphs()
    ensures { LinesTellGraphs }
{}

/// Two lists of first looks with one text are those of one list of locks.
pub fn looks_tell_locks()
    ensures { LooksTellLocks }
{}

/// Two compiled programs with one text are one, and their sections take the same keys.
pub fn texts_tell_programs()
    ensures { TextsTellPrograms }
{}
