//! Laws of texts that are written in pieces, each proved as the contract of a function that does nothing.

ghost use Rattle.kp_law_texts.specs.Maps.{PlacesDontMatter};
ghost use Rattle.kp_law_texts.specs.Texts.{PiecesReadAsTheirWords};
ghost use Rattle.kp_law_texts.specs.Tokens.{FinePiecesAreCut};

/// Pieces of which each word is a token that ends where it ends are cut into their words, at their spans.
#[tactic(auto, using(crate::proofs::Cuts::pieces_are_cut))]
pub fn pieces_are_cut()
    ensures { FinePiecesAreCut }
{}

/// What tokens read as without their places, they read as with them.
#[tactic(auto, using(crate::proofs::Natural::places_dont_matter))]
pub fn places_dont_matter()
    ensures { PlacesDontMatter }
{}

/// What the words of such pieces read as, the text that they spell reads as.
#[tactic(auto, using(crate::proofs::Texts::pieces_read))]
pub fn pieces_read_as_their_words()
    ensures { PiecesReadAsTheirWords }
{}
