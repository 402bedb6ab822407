//! Laws of the stages of a tower: each function does nothing, and its clause is a theorem.

ghost use Rattle.cover_quotient.specs.StageLaws.{TablesObeyWhatIsKilled, TrivialAnswersAreStages, StagesAreLargest, StagesHaveTheirClass};
ghost use Rattle.cover_quotient.specs.StageLaws.{StagesHaveNoSmallerClass, StagesOfMoreRelators, FullCoversOwe, LightCoversOwe};
ghost use Rattle.cover_quotient.specs.StageLaws.{StagesAreFitted, NextAnswersAreFitted, FittedAnswersStay, FittedAnswersAreLargest};
ghost use Rattle.cover_quotient.specs.StageLaws.{KeptTailsOfStagesMayDefine, NextAnswersAreStages, StagesStay, TowersStart, TowersGrow};
ghost use Rattle.cover_quotient.specs.StageLaws.{TowersStay, TowersBoundOrders};

/// The table of normal words of a consistent answer, with the elements of its images, obeys an L-presentation exactly where the
/// answer kills its relators.
pub fn tables_obey_what_is_killed()
    ensures { TablesObeyWhatIsKilled }
{}

/// The trivial answer is the stage of class 0.
pub fn trivial_answers_are_stages()
    ensures { TrivialAnswersAreStages }
{}

/// A stage is the largest quotient of its class.
pub fn stages_are_largest()
    ensures { StagesAreLargest }
{}

/// The presentation of a stage has the p-class that the stage shows.
pub fn stages_have_their_class()
    ensures { StagesHaveTheirClass }
{}

/// The presentation of a stage has no smaller p-class than the stage shows.
pub fn stages_have_no_smaller_class()
    ensures { StagesHaveNoSmallerClass }
{}

/// A stage whose answer kills the relators of a presentation with more relators is a stage of that presentation.
pub fn stages_of_more_relators()
    ensures { StagesOfMoreRelators }
{}

/// A full cover leaves out definitions alone, which hold.
pub fn full_covers_owe()
    ensures { FullCoversOwe }
{}

/// A cover of a canonical answer that leaves out no more than commutators of generators whose weights have a sum above the class
/// and one owes what holds by itself. The answer need not be consistent.
pub fn light_covers_owe()
    ensures { LightCoversOwe }
{}

/// All elements of group tables that obey the relators fit a stage at its class.
pub fn stages_are_fitted()
    ensures { StagesAreFitted }
{}

/// Modulo a basis in the span of justified rows, elements that fit an answer at its class fit the next answer at the next one,
/// whether or not either is consistent.
pub fn next_answers_are_fitted()
    ensures { NextAnswersAreFitted }
{}

/// Where no tail is kept, elements that fit an answer fit it at every later level.
pub fn fitted_answers_stay()
    ensures { FittedAnswersStay }
{}

/// An answer that elements fit is the largest quotient once it is consistent, has the class and kills the relators.
pub fn fitted_answers_are_largest()
    ensures { FittedAnswersAreLargest }
{}

/// In a cover of a stage that owes what it leaves out, each tail that is kept modulo the rows of all overlaps and relators may
/// define a generator.
pub fn kept_tails_of_stages_may_define()
    ensures { KeptTailsOfStagesMayDefine }
{}

/// Where a tail is kept, the next answer is the stage of the next class, and cut to the class before it is the stage of that
/// class. The rank has no limit here.
pub fn next_answers_are_stages()
    ensures { NextAnswersAreStages }
{}

/// Where no tail is kept, the answer is the stage of every later class.
pub fn stages_stay()
    ensures { StagesStay }
{}

/// The trivial answer is a tower of class 0.
pub fn towers_start()
    ensures { TowersStart }
{}

/// A next stage makes a tower of one class more.
pub fn towers_grow()
    ensures { TowersGrow }
{}

/// A tower whose answer is the stage of every later class is a tower of each of these classes.
pub fn towers_stay()
    ensures { TowersStay }
{}

/// No largest quotient of a class up to that of a tower has an order above that of the tower's answer.
pub fn towers_bound_orders()
    ensures { TowersBoundOrders }
{}
