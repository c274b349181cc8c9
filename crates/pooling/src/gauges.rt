// Which readings are kept, and what is shown of them.
ghost use Rattle.std.specs.Prelude.{◌≡◌, [], ◌∷◌, ◌++◌, ◌≤◌};
ghost use Rattle.tide.specs.JudgeRep.{read_of, shown_of};
ghost use Rattle.refusal.specs.Refusals.{given};
ghost use Rattle.pooling.specs.Pool.{there, newest, kept_of, shown_by, pooled, pool_of};
ghost use Rattle.pooling.specs.PoolRep.{pooled_of};

use crate::levels::middle;
use refusal::Refusal;
use tide::Reading;

// A gauge's water minute; 0 where its reading is missing.
#[tactic(auto, unfolding(crate::specs::Pool::newest))]
fn water_of(g: Option<Reading>) -> u32
    ensures { result ≡ newest (there (shown_of g)) }
{
    match g {
        None => 0,
        Some(reading) => reading.water,
    }
}

// A gauge's reading, dropped where it is more than 5 minutes older than the newest, n.
#[tactic(auto, unfolding(crate::specs::Pool::newest, crate::specs::Pool::kept_of))]
fn keep(n: u32, g: Option<Reading>) -> Option<Reading>
    requires { newest (there (shown_of g)) ≤ n }
    ensures { there (shown_of result) ≡ kept_of n (there (shown_of g)) }
{
    match g {
        None => None,
        Some(reading) => {
            if 5 < n - reading.water {
                return None;
            }
            Some(reading)
        }
    }
}

// Two readings kept.
#[tactic(auto, unfolding(crate::specs::Pool::shown_by, crate::specs::Pool::oldest, crate::specs::Pool::level_of, crate::specs::Pool::lower))]
fn of_two(x: Reading, y: Reading) -> Reading
    ensures { read_of result ≡ shown_by (read_of x) (read_of y ∷ []) }
{
    Reading {
        water: x.water.min(y.water),
        level: x.level.min(y.level),
    }
}

// Three readings kept.
#[tactic(auto, unfolding(crate::specs::Pool::shown_by, crate::specs::Pool::oldest, crate::specs::Pool::level_of))]
fn of_three(x: Reading, y: Reading, z: Reading) -> Reading
    ensures { read_of result ≡ shown_by (read_of x) (read_of y ∷ read_of z ∷ []) }
{
    Reading {
        water: x.water.min(y.water.min(z.water)),
        level: middle(x.level, y.level, z.level),
    }
}

// A reading kept, and what is kept of one gauge more.
#[tactic(auto, unfolding(crate::specs::Pool::shown_by, crate::specs::Pool::oldest, crate::specs::Pool::level_of))]
fn with_one(x: Reading, c: Option<Reading>) -> Reading
    ensures { read_of result ≡ shown_by (read_of x) (there (shown_of c)) }
{
    match c {
        None => x,
        Some(z) => of_two(x, z),
    }
}

// Two readings kept, and what is kept of one gauge more.
fn with_two(x: Reading, y: Reading, c: Option<Reading>) -> Reading
    ensures { read_of result ≡ shown_by (read_of x) (read_of y ∷ there (shown_of c)) }
{
    match c {
        None => of_two(x, y),
        Some(z) => of_three(x, y, z),
    }
}

// The first gauge's reading kept, and what is kept of two gauges more.
fn from_first(x: Reading, b: Option<Reading>, c: Option<Reading>) -> Reading
    ensures { read_of result ≡ shown_by (read_of x) (there (shown_of b) ++ there (shown_of c)) }
{
    match b {
        None => with_one(x, c),
        Some(y) => with_two(x, y, c),
    }
}

// What is kept of two gauges, where nothing is of the first.
#[tactic(auto, unfolding(crate::specs::Pool::pooled, crate::specs::Pool::shown_by, crate::specs::Pool::oldest, crate::specs::Pool::level_of))]
fn from_second(b: Option<Reading>, c: Option<Reading>) -> Result<Reading, Refusal>
    ensures { pooled_of result ≡ pooled (there (shown_of b) ++ there (shown_of c)) }
{
    match b {
        Some(y) => Ok(with_one(y, c)),
        None => match c {
            Some(z) => Ok(z),
            None => Err(Refusal::NoReadings),
        },
    }
}

// What is kept of three gauges, case by case: with no heap, a list of them would be an array with a count, and read no plainer.
#[tactic(auto, unfolding(crate::specs::Pool::pooled))]
fn of_kept(a: Option<Reading>, b: Option<Reading>, c: Option<Reading>) -> Result<Reading, Refusal>
    ensures { pooled_of result ≡ pooled (there (shown_of a) ++ there (shown_of b) ++ there (shown_of c)) }
{
    match a {
        Some(x) => Ok(from_first(x, b, c)),
        None => from_second(b, c),
    }
}

// The readings of three gauges, pooled; 46 where all three are missing.
pub fn pool(a: Option<Reading>, b: Option<Reading>, c: Option<Reading>) -> Result<Reading, Refusal>
    ensures { pooled_of result ≡ pool_of (shown_of a) (shown_of b) (shown_of c) }
{
    let newest_minute = water_of(a).max(water_of(b).max(water_of(c)));
    of_kept(
        keep(newest_minute, a),
        keep(newest_minute, b),
        keep(newest_minute, c),
    )
}
