// The senders, exported to C.
ghost use Rattle.std.specs.Prelude.{◌≡◌};
ghost use Rattle.calls.specs.Resample.{ran};
ghost use Rattle.calls.specs.Send.{send_run};
ghost use Rattle.calls.specs.Table.{table_run};
ghost use Rattle.snapshot.specs.ResamplerState.{traced};
ghost use Rattle.snapshot.specs.SenderState.{sender_state_run};

#[unsafe(no_mangle)]
pub extern "C" fn morkhetta_send(
    rate: u32,
    role: u32,
    data: &[u8],
    script: &[u64],
    samples: &mut [f32],
    answers: &mut [u64],
) -> usize
    ensures { ran result samples.new answers.new
        ≡ send_run rate role «data».now script.now samples.old answers.old }
{
    ffi::send::morkhetta_send(rate, role, data, script, samples, answers)
}

#[unsafe(no_mangle)]
pub extern "C" fn morkhetta_sender_state(
    rate: u32,
    role: u32,
    data: &[u8],
    script: &[u64],
    samples: &mut [f32],
    answers: &mut [u64],
    state: &mut [f64],
) -> usize
    ensures { traced (ran result samples.new answers.new) state.new
        ≡ sender_state_run rate role «data».now script.now samples.old answers.old state.old }
{
    ffi::send::morkhetta_sender_state(rate, role, data, script, samples, answers, state)
}

#[unsafe(no_mangle)]
pub extern "C" fn morkhetta_table_send(
    role: u32,
    data: &[u8],
    script: &[u64],
    samples: &mut [i32],
    answers: &mut [u64],
) -> usize
    ensures { ran result samples.new answers.new
        ≡ table_run role «data».now script.now samples.old answers.old }
{
    ffi::send::morkhetta_table_send(role, data, script, samples, answers)
}
