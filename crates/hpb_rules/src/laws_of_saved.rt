ghost use Rattle.hpb_rules.specs.SavedLaws.{ShownIsProper, NextIsProper, SavedIsRestored, RestoredIsSaved};

/// Under a definition that isn't refused, a value that shows a history is proper.
pub fn shown_is_proper()
    ensures { ShownIsProper }
{}

/// Under a definition that isn't refused, a proper value stays so after a command.
pub fn next_is_proper()
    ensures { NextIsProper }
{}

/// Under a definition that isn't refused, the saved form of a proper value may be restored, and gives the value back.
/// So it shows each history again that it showed.
pub fn saved_is_restored()
    ensures { SavedIsRestored }
{}

/// Under a definition that isn't refused, tables that may be restored give a proper value, and are its saved form.
pub fn restored_is_saved()
    ensures { RestoredIsSaved }
{}
