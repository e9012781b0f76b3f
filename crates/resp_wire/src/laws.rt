//! Laws of spelling.

ghost use Rattle.resp_wire.specs.Laws.{OneSpelling, OneFault, FrontIsWhole, FrontIsFaulty, FrontIsPartial, FrontKeepsValue, FrontKeepsFault, SpelledInOrder, CutsAlike, CanonicalSpells, CanonicalReads, SameValues};

/// No bytes spell two values, and no spelling begins another.
pub fn one_spelling()
    ensures { OneSpelling }
{}

/// A text has one first fault, and where it has one no front of it is a spelling.
pub fn one_fault()
    ensures { OneFault }
{}

/// The front of a text is a whole value exactly where a spelling of it begins the text.
pub fn front_is_whole()
    ensures { FrontIsWhole }
{}

/// The front of a text is a fault exactly where that is its first fault.
pub fn front_is_faulty()
    ensures { FrontIsFaulty }
{}

/// The front of a text is less than a value exactly where no spelling begins it and no fault is in it.
pub fn front_is_partial()
    ensures { FrontIsPartial }
{}

/// A whole value at the front stays, whatever bytes come behind.
pub fn front_keeps_value()
    ensures { FrontKeepsValue }
{}

/// A fault stays, whatever bytes come behind.
pub fn front_keeps_fault()
    ensures { FrontKeepsFault }
{}

/// What a reader was fed is spelled by the values that it gave, in order, and a rest.
pub fn spelled_in_order()
    ensures { SpelledInOrder }
{}

/// However the same bytes are cut, a reader gives the same values and the same fault.
pub fn cuts_alike()
    ensures { CutsAlike }
{}

/// The canonical spelling is a spelling wherever there is one.
pub fn canonical_spells()
    ensures { CanonicalSpells }
{}

/// Reading the canonical spelling gives the value back, whatever follows.
pub fn canonical_reads()
    ensures { CanonicalReads }
{}

/// `==` is true exactly where the values are the same.
pub fn same_values()
    ensures { SameValues }
{}
