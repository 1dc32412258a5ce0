//! Text behind what an output holds.
ghost use Rattle.std.specs.Prelude.{◌≡◌, ◌++◌, OnOk, decimal};
ghost use Rattle.std.specs.Fmt.{signed_decimal};

use itoa::Buffer;
use std::alloc::AllocError;

/// Writes bytes behind those that are there.
pub fn push_bytes(out: &mut Vec<u8>, bytes: &[u8]) -> Result<(), AllocError>
    ensures { OnOk result (out.new.items ≡ out.old.items ++ bytes.now) }
{
    out.extend_from_slice(bytes)
}

/// Writes a number's decimal digits.
pub fn push_number(out: &mut Vec<u8>, n: u64) -> Result<(), AllocError>
    ensures { OnOk result (out.new.items ≡ out.old.items ++ decimal n) }
{
    let mut buffer = Buffer::new();
    push_bytes(out, buffer.format(n).as_bytes())
}

/// Writes a number's decimal digits, with a `-` before those of one below 0.
pub fn push_integer(out: &mut Vec<u8>, z: i128) -> Result<(), AllocError>
    ensures { OnOk result (out.new.items ≡ out.old.items ++ signed_decimal z) }
{
    let mut buffer = Buffer::new();
    push_bytes(out, buffer.format(z).as_bytes())
}
