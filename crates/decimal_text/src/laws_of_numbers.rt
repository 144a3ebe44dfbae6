//! Laws of numbers in texts. Each function exists for its clause and does nothing.
ghost use Rattle.decimal_text.specs.Spellings.{SignedHasOneSpelling, SignedReadsBack, UnsignedHasOneSpelling, UnsignedReadsBack};

/// A written unsigned number reads back as the same number.
pub fn unsigned_reads_back()
    ensures { UnsignedReadsBack }
{}

/// A written signed number reads back as the same number.
pub fn signed_reads_back()
    ensures { SignedReadsBack }
{}

/// An unsigned number has exactly one spelling without leading zeros: the one that is written.
pub fn unsigned_has_one_spelling()
    ensures { UnsignedHasOneSpelling }
{}

/// A signed number has exactly one spelling without leading zeros: the one that is written.
pub fn signed_has_one_spelling()
    ensures { SignedHasOneSpelling }
{}
