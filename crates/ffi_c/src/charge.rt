// The line charge, exported to C.
ghost use Rattle.std.specs.Prelude.{◌≡◌};
ghost use Rattle.charges.specs.Charge.{charge_of, month_charge_of};
ghost use Rattle.calls.specs.Answers.{number_in};
ghost use Rattle.ffi.specs.Charge.{call_after, month_after};

// The charge of one call, and 0; or 1 or 45.
#[unsafe(no_mangle)]
pub extern "C" fn morkhetta_call_charge(rate: u32, samples: u64, charge: &mut [u64]) -> u32
    ensures value { result ≡ number_in (charge_of rate samples) }
    ensures charge_after { charge.new ≡ call_after (charge_of rate samples) charge.old }
{
    ffi::charge::morkhetta_call_charge(rate, samples, charge)
}

// The charge of a month's calls, and 0; or 1, 44 or 45.
#[unsafe(no_mangle)]
pub extern "C" fn morkhetta_month_charge(rate: u32, calls: &[u64], charge: &mut [i64]) -> u32
    ensures value { result ≡ number_in (month_charge_of rate calls.now) }
    ensures charge_after { charge.new ≡ month_after (month_charge_of rate calls.now) charge.old }
{
    ffi::charge::morkhetta_month_charge(rate, calls, charge)
}
