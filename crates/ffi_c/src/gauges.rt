// Three gauges, one level, exported to C.
ghost use Rattle.std.specs.Prelude.{◌≡◌};
ghost use Rattle.ffi.specs.Gauges.{gauge_of, told, pool_run};

// What three gauges show together, and 0; or 46.
#[unsafe(no_mangle)]
pub extern "C" fn morkhetta_pool(
    water1: u32,
    level1: i16,
    water2: u32,
    level2: i16,
    water3: u32,
    level3: i16,
    pooled: &mut [i64],
) -> u32
    ensures { told result pooled.new ≡ pool_run (gauge_of water1 level1) (gauge_of water2 level2) (gauge_of water3 level3) pooled.old }
{
    ffi::gauges::morkhetta_pool(water1, level1, water2, level2, water3, level3, pooled)
}
