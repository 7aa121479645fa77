//! What runs keep, over all graphs.
ghost use Rattle.flow_core.specs.RunLaws.{RunsKeepSorts};

/// Where each variable has a value of its sort, it has one at every later position of the run.
pub fn runs_keep_sorts()
    ensures { RunsKeepSorts }
{}
