// Lists of calls of the resampler.
ghost use Rattle.std.specs.Prelude.{◌≡◌, [], ◌++◌, ◌+◌, ◌*◌, ◌≤◌, length, take, drop};
ghost use Rattle.refusal.specs.Refusals.{reply_in};
ghost use Rattle.resampling.specs.Resample.{len_of};
ghost use Rattle.resampling.specs.ResampleRep.{state_of, outcome_of};
ghost use Rattle.calls.specs.Answers.{accepted_in, count_in, reply};
ghost use Rattle.calls.specs.Resample.{ran, processed_from, resample_run, lengths_from, lengths_run, called, samples_for, calls_for, scripted_from, state_after, scripted, script_run};
ghost use Rattle.calls.specs.Steps.{Within, Stepped};

use crate::answers::{numbers_of, tell};
use numeric::ends::part_end;
use refusal::{Answered, Counting, Refusal};
use resampling::Resampler;

// ---- max_output_len

// One call, and its two numbers at `at` of the answers.
fn one_length(state: Resampler, samples: u32, answers: &mut [u64], at: usize)
    requires { at + 2 ≤ length answers.old }
    ensures { answers.new ≡ take at answers.old ++ (reply (len_of (state_of state) samples) ++ drop (at + 2) answers.old) }
{
    let t = numbers_of(state.max_output_len(samples as usize));
    tell(answers, at, t);
}

// A call for each length.
fn all_lengths(state: Resampler, lengths: &[u32], answers: &mut [u64]) -> usize
    ensures { ran result [] answers.new ≡ lengths_from (state_of state) lengths.now answers.old }
{
    let calls = lengths.len().min(answers.len() / 2);
    for i in 0..calls {
        one_length(state, lengths[i], answers, 2 * i);
    }
    calls
}

pub fn lengths_from_fresh(src: u32, dst: u32, lengths: &[u32], answers: &mut [u64]) -> usize
    ensures { ran result [] answers.new ≡ lengths_run src dst lengths.now answers.old }
{
    let made = Resampler::new(src, dst);
    let answer = made.answer;
    let state = made.state;
    match answer {
        Err(_) => 0,
        Ok(()) => all_lengths(state, lengths, answers),
    }
}

// ---- process, and reset

// Kinds of calls, as C gives them: `process`; any other is `reset`. One test of one number reads plainer than an enum of two.
const PROCESS: u32 = 0;

fn samples_for(kind: u32, n: u32) -> u32
    ensures { result ≡ samples_for kind n }
{
    if kind == PROCESS { n } else { 0 }
}

// The call of this kind, lent these samples and this output.
fn make_call(
    r: Resampler,
    kind: u32,
    input: &[f64],
    output: &mut [f64],
) -> Answered<Resampler, usize>
    ensures output_after { outcome_of result output.new ≡ called kind (state_of r) input.now output.old }
{
    if kind == PROCESS {
        return r.process(input, output);
    }
    Answered {
        answer: Ok(0),
        state: r.reset(),
    }
}

// Where a list of calls stands: the resampler, and how much of input and output is behind it.
#[derive(Clone, Copy)]
struct Place {
    state: Resampler,
    read: usize,
    written: usize,
}

// One call, and its two numbers at `at` of the answers.
fn one_call(
    p: Place,
    kind: u32,
    n: u32,
    input: &[f64],
    output: &mut [f64],
    answers: &mut [u64],
    at: usize,
) -> Place
    requires { Within p input.now output.old × (at + 2 ≤ length answers.old) }
    ensures stepped { Stepped p result kind n input.now output.old output.new
        (take at answers.old) (drop (at + 2) answers.old) answers.new }
    ensures within { Within result input.now output.new }
{
    let Place {
        state,
        read,
        written,
    } = p;
    let samples = samples_for(kind, n);
    let end = part_end(read, samples, input.len());
    let done = make_call(state, kind, &input[read..end], &mut output[written..]);
    let t = numbers_of(done.answer);
    tell(answers, at, t);
    Place {
        state: done.state,
        read: end,
        written: written + t.count,
    }
}

// A call for each length.
fn all_calls(
    state: Resampler,
    input: &[f64],
    lengths: &[u32],
    output: &mut [f64],
    answers: &mut [u64],
) -> usize
    ensures { ran result output.new answers.new
        ≡ processed_from (state_of state) input.now lengths.now output.old answers.old }
{
    let calls = lengths.len().min(answers.len() / 2);
    let mut place = Place {
        state,
        read: 0,
        written: 0,
    };
    for i in 0..calls {
        place = one_call(place, PROCESS, lengths[i], input, output, answers, 2 * i);
    }
    calls
}

pub fn calls_from_fresh(
    src: u32,
    dst: u32,
    input: &[f64],
    lengths: &[u32],
    output: &mut [f64],
    answers: &mut [u64],
) -> usize
    ensures { ran result output.new answers.new
        ≡ resample_run src dst input.now lengths.now output.old answers.old }
{
    let made = Resampler::new(src, dst);
    let answer = made.answer;
    let state = made.state;
    match answer {
        Err(_) => 0,
        Ok(()) => all_calls(state, input, lengths, output, answers),
    }
}

// ---- a script of both

// Each call of the script that has room for its answer: how many were run, and the resampler behind them.
fn all_scripted(
    state: Resampler,
    input: &[f64],
    script: &[u32],
    output: &mut [f64],
    answers: &mut [u64],
) -> Counting<Resampler>
    ensures answers_after { ran result.count output.new answers.new
        ≡ scripted_from (calls_for script.now answers.old)
        (state_of state) input.now script.now output.old answers.old }
    ensures state_value { state_of result.state
        ≡ state_after (calls_for script.now answers.old)
        (state_of state) input.now script.now output.old }
{
    let calls = (script.len() / 2).min(answers.len() / 2);
    let mut place = Place {
        state,
        read: 0,
        written: 0,
    };
    for i in 0..calls {
        let kind = script[2 * i];
        let n = script[2 * i + 1];
        place = one_call(place, kind, n, input, output, answers, 2 * i);
    }
    Counting {
        count: calls,
        state: place.state,
    }
}

// A fresh resampler, and the calls of the script, none where `new` refuses the rates: how many were run, and the resampler behind them.
pub fn scripted_from_fresh(
    src: u32,
    dst: u32,
    input: &[f64],
    script: &[u32],
    output: &mut [f64],
    answers: &mut [u64],
) -> Answered<Resampler, usize>
    ensures state_after { scripted (accepted_in (reply_in result.answer))
        (ran (count_in (reply_in result.answer)) output.new answers.new) (state_of result.state)
        ≡ script_run src dst input.now script.now output.old answers.old }
{
    let made = Resampler::new(src, dst);
    let answer = made.answer;
    let fresh = made.state;
    match answer {
        Err(why) => Answered {
            answer: Err(why),
            state: fresh,
        },
        Ok(()) => {
            let e = all_scripted(fresh, input, script, output, answers);
            Answered {
                answer: Ok(e.count),
                state: e.state,
            }
        }
    }
}
