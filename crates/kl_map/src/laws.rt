// What is known of a map from its text.
ghost use Rattle.kl_map.specs.Spelling.{OneSpelling};

/// No two maps have one text.
pub fn one_spelling()
    ensures { OneSpelling }
{}
