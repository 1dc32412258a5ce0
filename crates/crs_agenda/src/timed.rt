ghost use Rattle.std.specs.Prelude.{◌≡◌};
ghost use Rattle.crs_agenda.specs.Freshness.{is_fresh};

/// A place, and the serial number of what stood there when the handle was made. It is stale where
/// the place has another serial number now.
#[derive(PartialEq, Eq, Clone, Copy, Debug, Drop)]
pub struct Handle {
    pub place: u32,
    pub serial: u32,
}

impl Handle {
    /// Whether the place still has the handle's serial number, by the serial numbers of all places.
    #[inline(always)]
    pub fn is_fresh(self, serials: &[u32]) -> bool
        ensures { result ≡ is_fresh serials.now self }
    {
        let place = self.place as usize;
        place < serials.len() && serials[place] == self.serial
    }
}

/// A handle with its date.
#[derive(Clone, Copy)]
pub struct Timed {
    pub date: u64,
    pub handle: Handle,
}
