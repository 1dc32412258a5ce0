//! What the definitions of this crate imply, by themselves. The functions do nothing.
ghost use Rattle.crs_stn.specs.DateWindow.{DateWindowsAreExact, JointDemandHolds};
ghost use Rattle.crs_stn.specs.Network.{LeastBoundsDecide};

/// The least bounds decide which dates of some points can be continued to all: each two of them have to keep to the least bound between their points.
///
/// Dechter, Meiri and Pearl 1991 call this the decomposability of the minimal network.
pub fn least_bounds_decide()
    ensures { LeastBoundsDecide }
{}

/// Where some dates are given, the least bounds from and to them give the greatest and the least date of each point.
pub fn date_windows_are_exact()
    ensures { DateWindowsAreExact }
{}

/// Where each of some points can be at a date or after it, all of them can be so at once.
pub fn joint_demand_holds()
    ensures { JointDemandHolds }
{}
