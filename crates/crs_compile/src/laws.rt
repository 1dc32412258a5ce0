ghost use Rattle.crs_compile.specs.PlanLaws.{ReachIsOne, MinimalTextIsOne, LagsDecide};

/// There is one reach for given least bounds.
pub fn reach_is_one()
    ensures { ReachIsOne }
{}

/// Proper chronicles have one text of their least bounds.
pub fn minimal_text_is_one()
    ensures { MinimalTextIsOne }
{}

/// Of proper chronicles in order, the lags aren't both short with all and too long with one.
pub fn lags_decide()
    ensures { LagsDecide }
{}
