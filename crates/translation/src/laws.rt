//! Laws of the passes over the attributes of a packet, for every list of them.

ghost use Rattle.translation.specs.Laws.{PassesFindTheFaults, PassesGiveThePieces};

/// A pass that keeps what it saw gives of all attributes what each of them gives at its place.
pub fn passes_give_the_pieces()
    ensures { PassesGiveThePieces }
{}

/// A pass finds what is said of all attributes, and the first reason in it is the one that lies in them.
pub fn passes_find_the_faults()
    ensures { PassesFindTheFaults }
{}
