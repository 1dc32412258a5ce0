//! Made logs and the models to run them with: the same text for the same seed, for trials of speed and load.
#![tactic(auto)]

ghost use Rattle.std.specs.Prelude.{◌≡◌, ◌≤◌, IfOk};
ghost use Rattle.crs_drill.specs.Drill.{drill_text};
ghost use Rattle.crs_drill.specs.DrillModels.{drill_models_text};

mod drill;
mod laws;
mod writing;

use crs_base::push_bytes;
pub use drill::Drill;
pub use laws::seven_makes;
use std::alloc::{AllocError, Global};

/// The log of `n` lines that the seed gives.
pub fn make_log(alloc: Global, seed: u32, n: u32) -> Result<Vec<u8>, AllocError>
    requires least { 1 ≤ seed }
    requires most { seed ≤ 2147483646 }
    requires lines { n ≤ 1000000 }
    ensures { IfOk result (λ log. log.items ≡ drill_text seed n) }
{
    let mut out = Vec::new(alloc);
    push_bytes(&mut out, b"delay 8\n")?;
    let mut drill = Drill::new(seed);
    for k in 0..n {
        drill.push_line(&mut out)?;
        drill.push_clock(&mut out, k + 1)?;
    }
    push_bytes(&mut out, b"end\n")?;
    Ok(out)
}

/// The models that a made log is run with.
pub fn drill_models() -> &'static [u8]
    ensures { result.now ≡ drill_models_text }
{
    b"message m0 1\n\
    message m1 1\n\
    message m2 1\n\
    message m3 1\n\
    message m4 1\n\
    message m5 1\n\
    message m6 1\n\
    message m7 1\n\
    chronicle chain {\n\
    \x20 event(m0[?u], t0) level 1\n\
    \x20 event(m1[?u], t1) level 1\n\
    \x20 event(m2[?u], t2) level 1\n\
    \x20 event(m3[?u], t3) level 1\n\
    \x20 event(m4[?u], t4) level 1\n\
    \x20 event(m5[?u], t5) level 1\n\
    \x20 event(m6[?u], t6) level 1\n\
    \x20 event(m7[?u], t7)\n\
    \x20 t1 - t0 in [0, 100]\n\
    \x20 t2 - t1 in [0, 100]\n\
    \x20 t3 - t2 in [0, 100]\n\
    \x20 t4 - t3 in [0, 100]\n\
    \x20 t5 - t4 in [0, 100]\n\
    \x20 t6 - t5 in [0, 100]\n\
    \x20 t7 - t6 in [0, 100]\n\
    }\n\
    chronicle quiet {\n\
    \x20 event(m7[?u], t0)\n\
    \x20 noevent(m0[?u], (t0 + 1, t0 + 60))\n\
    }\n"
}
