// The resampler's state behind a script of its calls, as a list of f64.
ghost use Rattle.std.specs.Prelude.{◌≡◌};
ghost use Rattle.refusal.specs.Refusals.{reply_in};
ghost use Rattle.resampling.specs.ResampleRep.{state_of};
ghost use Rattle.calls.specs.Answers.{accepted_in};
ghost use Rattle.calls.specs.Resample.{ran};
ghost use Rattle.snapshot.specs.ResamplerState.{resampler_shown, shown_after, traced, resampler_run};

use crate::state::put_numbers;
use calls::scripted_from_fresh;
use refusal::Refusal;
use resampling::Resampler;

// The numbers at the front of the slice, where there is room for them.
fn show_numbers(r: Resampler, state: &mut [f64])
    ensures { state.new ≡ resampler_shown (state_of r) state.old }
{
    if state.len() < 753 {
        return;
    }
    put_numbers(r, state);
}

// A twin of the sender's: one function of both would take the two ways to show as closures, and read no plainer.
fn show_accepted(answer: Result<usize, Refusal>, r: Resampler, state: &mut [f64])
    ensures { state.new ≡ shown_after (accepted_in (reply_in answer)) (state_of r) state.old }
{
    match answer {
        Err(_) => {}
        Ok(_) => show_numbers(r, state),
    }
}

// A fresh resampler, the calls of the script, and the state behind them.
pub fn resampler_from_fresh(
    src: u32,
    dst: u32,
    input: &[f64],
    script: &[u32],
    output: &mut [f64],
    answers: &mut [u64],
    state: &mut [f64],
) -> usize
    ensures { traced (ran result output.new answers.new) state.new
        ≡ resampler_run src dst input.now script.now output.old answers.old state.old }
{
    let s = scripted_from_fresh(src, dst, input, script, output, answers);
    show_accepted(s.answer, s.state, state);
    s.answer.unwrap_or(0)
}
