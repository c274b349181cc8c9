// The resampler, exported to C.
ghost use Rattle.std.specs.Prelude.{◌≡◌, []};
ghost use Rattle.calls.specs.Resample.{ran, resample_run, lengths_run};
ghost use Rattle.snapshot.specs.ResamplerState.{traced, resampler_run};

use calls::{calls_from_fresh, lengths_from_fresh};
use snapshot::resampler_from_fresh;

pub fn morkhetta_max_output_len(src: u32, dst: u32, lengths: &[u32], answers: &mut [u64]) -> usize
    ensures { ran result [] answers.new ≡ lengths_run src dst lengths.now answers.old }
{
    lengths_from_fresh(src, dst, lengths, answers)
}

pub fn morkhetta_resample(
    src: u32,
    dst: u32,
    input: &[f64],
    lengths: &[u32],
    output: &mut [f64],
    answers: &mut [u64],
) -> usize
    ensures { ran result output.new answers.new
        ≡ resample_run src dst input.now lengths.now output.old answers.old }
{
    calls_from_fresh(src, dst, input, lengths, output, answers)
}

pub fn morkhetta_resampler_state(
    src: u32,
    dst: u32,
    input: &[f64],
    script: &[u32],
    output: &mut [f64],
    answers: &mut [u64],
    state: &mut [f64],
) -> usize
    ensures { traced (ran result output.new answers.new) state.new
        ≡ resampler_run src dst input.now script.now output.old answers.old state.old }
{
    resampler_from_fresh(src, dst, input, script, output, answers, state)
}
