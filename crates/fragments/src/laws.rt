//! Laws of fragments that stand for a history. Each function does nothing when it runs: its contract is the law.
ghost use Rattle.fragments.specs.Laws.{IndexFindsFragments, BaseStands, EntryTakesItsPlace, PlacesCountCells};

/// The index of fragments that stand for a lawful history finds the fragment of each cell.
pub fn index_finds_fragments()
    ensures { IndexFindsFragments }
{}

/// One fragment stands for a base with a text, and no fragment for an empty base.
pub fn base_stands()
    ensures { BaseStands }
{}

/// An entry that is set replaces the one with its key, and no other.
pub fn entry_takes_its_place()
    ensures { EntryTakesItsPlace }
{}

/// The places after fragments count the cells of these fragments.
pub fn places_count_cells()
    ensures { PlacesCountCells }
{}
