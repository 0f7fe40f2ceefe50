//! Laws over all deltas, each on a function that does nothing.

ghost use Rattle.spec_lists.specs.Laws.{CompositionIsAssociative, IdentityIsNeutral, InverseOfComposition, CompositionJoinsPairs, CompositionLeads, InverseLeadsBack, SidesTellPairs};

/// Composition is associative.
pub fn composition_is_associative()
    ensures { CompositionIsAssociative }
{}

/// The identity is neutral on both sides.
pub fn identity_is_neutral()
    ensures { IdentityIsNeutral }
{}

/// The inverse of a composition is the composition of the inverses in turn.
pub fn inverse_of_composition()
    ensures { InverseOfComposition }
{}

/// A pair of a composition is a pair of the first delta and one of the second that meet, updated where either is.
pub fn composition_joins_pairs()
    ensures { CompositionJoinsPairs }
{}

/// A composition leads from the first list to the last.
pub fn composition_leads()
    ensures { CompositionLeads }
{}

/// The inverse leads back.
pub fn inverse_leads_back()
    ensures { InverseLeadsBack }
{}

/// Both sides of a delta tell its pairs, which are strictly increasing on both sides.
pub fn sides_tell_pairs()
    ensures { SidesTellPairs }
{}
