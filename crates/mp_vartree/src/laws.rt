//! Laws of names and of variables.

ghost use Rattle.mp_vartree.specs.Laws.{MatchesOne, TellsApart, PutsOne, TakesThose};

/// A law: a name matches exactly one pattern, which has `Any` for each of its subscripts.
pub fn one_pattern_matches()
    ensures { MatchesOne }
{}

/// Laws: the list of variables is a finite map from full names.
pub fn variables_are_a_map()
    ensures apart { TellsApart }
    ensures puts { PutsOne }
    ensures takes { TakesThose }
{}
