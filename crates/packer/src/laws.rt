//! What a list of boxes says of the lines that it is drawn from.
ghost use Rattle.packer.specs.Laws.{DrawsAll, NamesWords, PlacesWords, PlacesRules};
ghost use Rattle.packer.specs.Writes.{MayBeWritten};

/// Each box names its word, stands where its line, its entry and the items before it put it, and there are no others.
/// Where lines and columns are in their ranges, the list may be written.
pub fn lists_draw_lines()
    ensures all { DrawsAll }
    ensures names { NamesWords }
    ensures words { PlacesWords }
    ensures rules { PlacesRules }
    ensures writes { MayBeWritten }
{}
