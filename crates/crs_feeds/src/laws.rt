ghost use Rattle.crs_feeds.specs.Laws.{MergedRunsAgree};
ghost use Rattle.crs_feeds.specs.Standing.{IdlePairsNeedNoCall};

/// Two merged runs of the same logs, in which no line is refused for want of room, have the same
/// settled entries at a common horizon that both reach, apart from arrival numbers, and the same lines
/// of what is recognised there, apart from marks.
pub fn merged_runs_agree()
    ensures { MergedRunsAgree }
{}

/// Feeds that stand for a merged run stand for it behind one more pair too, where that pair leaves the
/// run as it was.
pub fn idle_pairs_need_no_call()
    ensures { IdlePairsNeedNoCall }
{}
