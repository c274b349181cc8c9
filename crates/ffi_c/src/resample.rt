// The resampler, exported to C.
ghost use Rattle.std.specs.Prelude.{◌≡◌, []};
ghost use Rattle.calls.specs.Resample.{ran, resample_run, lengths_run};
ghost use Rattle.snapshot.specs.ResamplerState.{traced, resampler_run};

#[unsafe(no_mangle)]
pub extern "C" fn morkhetta_max_output_len(
    src: u32,
    dst: u32,
    lengths: &[u32],
    answers: &mut [u64],
) -> usize
    ensures { ran result [] answers.new ≡ lengths_run src dst lengths.now answers.old }
{
    ffi::resample::morkhetta_max_output_len(src, dst, lengths, answers)
}

#[unsafe(no_mangle)]
pub extern "C" fn morkhetta_resample(
    src: u32,
    dst: u32,
    input: &[f64],
    lengths: &[u32],
    output: &mut [f64],
    answers: &mut [u64],
) -> usize
    ensures { ran result output.new answers.new
        ≡ resample_run src dst input.now lengths.now output.old answers.old }
{
    ffi::resample::morkhetta_resample(src, dst, input, lengths, output, answers)
}

#[unsafe(no_mangle)]
pub extern "C" fn morkhetta_resampler_state(
    src: u32,
    dst: u32,
    input: &[f64],
    script: &[u32],
    output: &mut [f64],
    answers: &mut [u64],
    state: &mut [f64],
) -> usize
    ensures { traced (ran result output.new answers.new) state.new
        ≡ resampler_run src dst input.now script.now output.old answers.old state.old }
{
    ffi::resample::morkhetta_resampler_state(src, dst, input, script, output, answers, state)
}
