//! Laws of patterns, predicates and what is known of a matrix, each the contract of a function that does nothing.

ghost use Rattle.sf_known.specs.Known.{AnswersAreTrue, AnswersWhereAllAgree, BothHold, ContactAnswers, ContactIsPlaced, SettledIsEnough};
ghost use Rattle.sf_known.specs.Patterns.{PatternsAreOfTheirTexts, PatternsNeedContact};
ghost use Rattle.sf_known.specs.Predicates.{PredicatesNeedContact};

/// A pattern that needs contact matches no matrix without it.
pub fn patterns_need_contact()
    ensures { PatternsNeedContact }
{}

/// A pattern is that of its text.
pub fn patterns_are_of_their_texts()
    ensures { PatternsAreOfTheirTexts }
{}

/// A predicate that needs contact holds of no matrix without it.
pub fn predicates_need_contact()
    ensures { PredicatesNeedContact }
{}

/// An answer is what the goal says of each matrix of which the known holds.
pub fn answers_are_true()
    ensures { AnswersAreTrue }
{}

/// There is an answer to a pattern wherever all matrices of which the known holds give the same one, where contact is
/// not known.
pub fn answers_where_all_agree()
    ensures { AnswersWhereAllAgree }
{}

/// What two say together holds of each matrix of which both hold.
pub fn both_hold()
    ensures { BothHold }
{}

/// Where contact is known, no pattern is matched that allows none.
pub fn contact_answers()
    ensures { ContactAnswers }
{}

/// Where contact can be one of the boundaries alone, it is.
pub fn contact_is_placed()
    ensures { ContactIsPlaced }
{}

/// Where each entry has its least and no more, whatever is asked is known.
pub fn settled_is_enough()
    ensures { SettledIsEnough }
{}
