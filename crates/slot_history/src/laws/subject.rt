//! Histories of a subject: each install is of a task set that the subject has, with its total.

ghost use Rattle.slot_history.specs.Subject.{SubjectShows, SubjectGoesOn, SubjectBegins};

/// A legal history of a subject shows only task sets of the subject: in each install, in what its
/// calls and their answers name, and with their totals in the slots. It stays of the subject if the
/// next call installs one of its task sets. Its beginnings are of the subject too.
///
/// Ruled out: an install whose total is not the subject's, or is set after the slot opened.
pub fn of_subject()
    ensures shows { SubjectShows }
    ensures goes_on { SubjectGoesOn }
    ensures begins { SubjectBegins }
{}
