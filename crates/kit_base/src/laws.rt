//! Laws of the packed words: each is the contract of a function that does nothing.

ghost use Rattle.kit_base.specs.Words.{HeadsComeBack, HeadsAreWords, BodiesComeBack};
ghost use Rattle.kit_base.specs.Words.{BodiesAreWords};

/// A head that was packed tells the message's number, kind and group, and the colour.
pub fn heads_come_back()
    ensures { HeadsComeBack }
{}

/// No word but the packed one tells the same head.
pub fn heads_are_words()
    ensures { HeadsAreWords }
{}

/// A body that was packed tells the message's time and value.
pub fn bodies_come_back()
    ensures { BodiesComeBack }
{}

/// No word but the packed one tells the same time and value.
pub fn bodies_are_words()
    ensures { BodiesAreWords }
{}
