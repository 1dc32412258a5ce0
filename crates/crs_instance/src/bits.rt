ghost use Rattle.std.specs.Prelude.{◌≡◌, ◌+◌, ◌<◌, ◌≤◌, ◌^◌, ◌==◌};

/// The same bits and one more.
pub(crate) fn with_bit(bits: u16, place: u8) -> u16
    requires place { place < 16 }
    requires room { bits + 2 ^ place < 2 ^ 16 }
    ensures { result ≡ bits + 2 ^ place }
{
    bits + (1 << place)
}

/// Whether so many bits are set, where no others are.
pub(crate) fn are_all_set(bits: u16, count: u8) -> bool
    requires { count ≤ 16 }
    ensures { result ≡ (bits + 1 == 2 ^ count) }
{
    bits as u32 + 1 == 1u32 << count
}
