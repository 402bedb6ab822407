//! Laws of elements of a group table that fit an answer: each function does nothing, and its clause is a theorem.

ghost use Rattle.cover_quotient.specs.FittingLaws.{FitsAtZero, FitsFactors, CoversFit, DefinitionsHold, FullCoversLeaveNothingOut};
ghost use Rattle.cover_quotient.specs.FittingLaws.{FullCoversFit, ImagesAreExact, JustifiedRowsFit, OneClassFits, NoTailKeptFits};

/// All elements of a group table, one for each given generator, fit each answer at level 0 of the series.
#[tactic(auto, using(crate::proofs::fitting::FitsStart::fits_at_zero))]
pub fn fits_at_zero()
    ensures { FitsAtZero }
{}

/// Where the elements fit an answer at a level that is trivial, the map of the given generators into the table factors
/// through the answer exactly once.
#[tactic(auto, using(crate::proofs::fitting::FitsStart::fits_factors))]
pub fn fits_factors()
    ensures { FitsFactors }
{}

/// In a cover of an answer that the elements fit at level c, each tail is what its relation or image fails by, and each
/// relation of the cover holds up to level c + 1: so joined words have values that differ by an element of that level.
#[tactic(auto, using(crate::proofs::fitting::FittingLaws::covers_fit))]
pub fn covers_fit()
    ensures { CoversFit }
{}

/// A relation or an image that defines a generator fails by nothing, since the generator is what it spells.
#[tactic(auto, using(crate::proofs::fitting::FittingLaws::definitions_hold))]
pub fn definitions_hold()
    ensures { DefinitionsHold }
{}

/// In a full cover what carries no tail defines a generator, so it fails by nothing.
#[tactic(auto, using(crate::proofs::fitting::FittingLaws::full_covers_leave_nothing_out))]
pub fn full_covers_leave_nothing_out()
    ensures { FullCoversLeaveNothingOut }
{}

/// So in a full cover what carries no tail holds up to every level.
#[tactic(auto, using(crate::proofs::fitting::FittingLaws::full_covers_fit))]
pub fn full_covers_fit()
    ensures { FullCoversFit }
{}

/// Where nothing that carries no tail fails, the images of a cover have exactly the elements given as values.
#[tactic(auto, using(crate::proofs::fitting::FittingLaws::images_are_exact))]
pub fn images_are_exact()
    ensures { ImagesAreExact }
{}

/// In a cover of an answer that the elements fit at level c, the words of rows in the span of justified rows have values in
/// level c + 1.
#[tactic(auto, using(crate::proofs::fitting::FittingLaws::justified_rows_fit))]
pub fn justified_rows_fit()
    ensures { JustifiedRowsFit }
{}

/// One class: elements that fit an answer at level c fit the next answer at level c + 1, where the basis is in the span of
/// justified rows and each kept tail may define a generator. The level need not be the class.
#[tactic(auto, using(crate::proofs::fitting::FittingLaws::one_class_fits))]
pub fn one_class_fits()
    ensures { OneClassFits }
{}

/// Where no tail is kept, elements that fit an answer at level c fit the same answer at level c + 1.
#[tactic(auto, using(crate::proofs::fitting::FittingLaws::no_tail_kept_fits))]
pub fn no_tail_kept_fits()
    ensures { NoTailKeptFits }
{}
