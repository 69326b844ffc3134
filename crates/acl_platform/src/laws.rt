ghost use Rattle.acl_platform.specs.Combinations.{CombinationsHold, SomeCombination};

/// A law: some combination of a sound rule holds a packet exactly where each of its sets does.
pub fn combinations_hold_what_the_sets_hold()
    ensures { CombinationsHold }
{}

/// A law: a sound rule has a combination.
pub fn sound_rules_have_combinations()
    ensures { SomeCombination }
{}
