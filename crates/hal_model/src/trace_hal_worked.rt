//! Worked values, as facts: traces and their hal logs.
ghost use Rattle.std.specs.Prelude.{◌≡◌, []};
ghost use Rattle.hal_model.specs.Rules.{open_requests, report};
ghost use Rattle.hal_model.specs.Hal.{whole_log};
ghost use Rattle.hal_model.specs.TraceHalWorked.{failed, failed_log, flushed, flushed_log, script};

/// A trace with an entry of nearly each kind and its hal log, which breaks no rule; the same of a device that fails.
pub fn the_log_of_a_trace()
    ensures flushed { whole_log script flushed ≡ flushed_log }
    ensures flushed_report { report 3 flushed_log ≡ [] }
    ensures flushed_open { open_requests 3 flushed_log ≡ [] }
    ensures failed { whole_log script failed ≡ failed_log }
    ensures failed_report { report 3 failed_log ≡ [] }
{}
