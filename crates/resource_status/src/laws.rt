//! Laws of the condition of a resource.
ghost use Rattle.resource_status.specs.Laws.{DownIsBad, FailedIsBad, StartedIsWell};

/// A resource that was started, and of which nothing failed since, is neither failed nor unknown.
pub fn lemma_started_is_well()
    ensures { StartedIsWell }
{}

/// A resource whose last result that shows a condition is one of an action that failed is neither started nor stopped.
pub fn lemma_failed_is_bad()
    ensures { FailedIsBad }
{}

/// Nor is one that failed and that no result shows running since, unless it is a stop that failed.
pub fn lemma_down_is_bad()
    ensures { DownIsBad }
{}
