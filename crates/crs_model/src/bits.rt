ghost use Rattle.std.specs.Prelude.{◌≡◌, ◌<◌};
ghost use Rattle.crs_model.specs.Bits.{is_set};

/// Whether the bit of this number, from the least, is set.
pub fn is_set_at(bits: u16, place: u8) -> bool
    requires { place < 16 }
    ensures { result ≡ is_set bits place }
{
    (bits >> place) % 2 == 1
}
