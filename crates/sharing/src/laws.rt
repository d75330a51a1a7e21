//! What it is for gaps to be set by the rule.
ghost use Rattle.sharing.specs.Laws.{SettingMeets};

/// Whatever width can be had is met: columns and set gaps add up to it, what had room keeps it, and all of the surplus is shared.
pub fn settings_meet()
    ensures { SettingMeets }
{}
