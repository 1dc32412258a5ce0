// When a desk in memory fails, and how much it moves at once.
ghost use Rattle.std.specs.Prelude.{◌≡◌, map};
ghost use Rattle.crs_desk.specs.FailingCalls.{is_failing_read, moved_of};
ghost use Rattle.crs_desk.specs.FailingRead.{call_of};

/// The number of a read that fails, counted from 1 for each input of the name.
#[derive(Drop)]
pub struct FailingRead {
    pub name: Vec<u8>,
    pub call: u64,
}

// Whether this call of an input of this name is among those that fail.
pub fn is_failing(reads: &[FailingRead], name: &[u8], call: u64) -> bool
    ensures { result ≡ is_failing_read (map call_of reads.now) name.now call }
{
    for read in reads {
        if read.name.as_slice() == name && read.call == call {
            return true;
        }
    }
    false
}

// How many bytes move, where so many may.
pub fn moved(piece: Option<usize>, most: usize) -> usize
    ensures { result ≡ moved_of piece most }
{
    match piece {
        None => most,
        Some(n) => n.min(most),
    }
}
