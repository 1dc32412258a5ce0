ghost use Rattle.std.specs.Prelude.{◌≡◌, codes};
ghost use Rattle.crs_drill.specs.Drill.{drill_text};

/// The seed 7 makes these two lines.
pub fn seven_makes()
    ensures { drill_text 7 2 ≡ codes "delay 8\n0 m0[u46]\n0 m0[u58]\nend\n" }
{}
