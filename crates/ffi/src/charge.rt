// The line charge, exported to C.
ghost use Rattle.std.specs.Prelude.{◌≡◌, ◌≤◌};
ghost use Rattle.charges.specs.Charge.{charge_of, month_charge_of};
ghost use Rattle.calls.specs.Answers.{number_in};
ghost use Rattle.ffi.specs.Charge.{most_shown, call_after, laid_month, month_after};

use crate::row::lay;
use charges::{Month, call_charge, month_charge};

// A month's three numbers at the front of a slice, where it has room for them.
fn lay_month(out: &mut [i64], month: Month)
    requires { (month.thousandths ≤ most_shown) × (month.pence ≤ most_shown) }
    ensures { out.new ≡ laid_month month out.old }
{
    let row = [
        month.thousandths as i64,
        month.pence as i64,
        i64::from(month.part),
    ];
    lay(out, &row);
}

// The charge of one call, and 0; or 1 or 45.
pub fn morkhetta_call_charge(rate: u32, samples: u64, charge: &mut [u64]) -> u32
    ensures value { result ≡ number_in (charge_of rate samples) }
    ensures charge_after { charge.new ≡ call_after (charge_of rate samples) charge.old }
{
    let answer = call_charge(rate, samples);
    match answer {
        Ok(n) => {
            lay(charge, &[n]);
            0
        }
        Err(r) => u32::from(r),
    }
}

// The charge of a month's calls, and 0; or 1, 44 or 45.
pub fn morkhetta_month_charge(rate: u32, calls: &[u64], charge: &mut [i64]) -> u32
    ensures value { result ≡ number_in (month_charge_of rate calls.now) }
    ensures charge_after { charge.new ≡ month_after (month_charge_of rate calls.now) charge.old }
{
    let answer = month_charge(rate, calls);
    match answer {
        Ok(month) => {
            lay_month(charge, month);
            0
        }
        Err(r) => u32::from(r),
    }
}
