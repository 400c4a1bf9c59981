//! Laws of results that are judged, each the contract of a function that does nothing: a caller that needs the law in its proof calls it.

ghost use Rattle.result_audit.specs.Law.{OwnResultsAreExact, NoResultIsPassedOver};

/// The results that a port makes of a Sync and an exchange, whichever of both came last, are exact by its readings, whatever the tolerance, and
/// wait for nothing.
pub fn own_results_are_exact()
    ensures { OwnResultsAreExact }
{}

/// Each result that is taken is answered once, in whatever order reports and results come: until then it is held, or waits for its Sync. At
/// the end none waits, and all are handed out.
pub fn no_result_is_passed_over()
    ensures { NoResultIsPassedOver }
{}
