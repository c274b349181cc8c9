// Three gauges, one level, exported to C.
ghost use Rattle.std.specs.Prelude.{◌≡◌};
ghost use Rattle.tide.specs.JudgeRep.{shown_of};
ghost use Rattle.ffi.specs.Gauges.{gauge_of, told, pool_run};

use crate::row::lay;
use tide::Reading;

// A gauge's reading; the level -32,768 says that it is missing.
fn gauge(water: u32, level: i16) -> Option<Reading>
    ensures { shown_of result ≡ gauge_of water level }
{
    if level < -32767 {
        return None;
    }
    Some(Reading { water, level })
}

// What three gauges show together, and 0; or 46.
pub fn morkhetta_pool(
    water1: u32,
    level1: i16,
    water2: u32,
    level2: i16,
    water3: u32,
    level3: i16,
    pooled: &mut [i64],
) -> u32
    ensures { told result pooled.new ≡ pool_run (gauge_of water1 level1) (gauge_of water2 level2) (gauge_of water3 level3) pooled.old }
{
    let a = gauge(water1, level1);
    let b = gauge(water2, level2);
    let c = gauge(water3, level3);
    let answer = pooling::pool(a, b, c);
    match answer {
        Ok(reading) => {
            lay(
                pooled,
                &[i64::from(reading.water), i64::from(reading.level)],
            );
            0
        }
        Err(r) => u32::from(r),
    }
}
