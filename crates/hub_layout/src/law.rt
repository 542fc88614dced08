//! What holds of the places of all words.
ghost use Rattle.hub_layout.specs.Places.{PlacesDiffer, PlacesLieWithin};

/// Two words of a hub lie at different places (this project's own); the function does nothing.
pub fn places_differ()
    ensures { PlacesDiffer }
{}

/// Each word lies in a table of as many words as `words` gives; the function does nothing.
pub fn places_lie_within()
    ensures { PlacesLieWithin }
{}
