// The sender's state behind a script of its calls, as a list of f64.
ghost use Rattle.std.specs.Prelude.{◌≡◌, ◌++◌, ◌≤◌, length, drop};
ghost use Rattle.refusal.specs.Refusals.{reply_in};
ghost use Rattle.modulation.specs.TxRep.{sender_of};
ghost use Rattle.calls.specs.Answers.{accepted_in};
ghost use Rattle.calls.specs.Resample.{ran};
ghost use Rattle.snapshot.specs.ResamplerState.{traced};
ghost use Rattle.snapshot.specs.SenderState.{sender_numbers, sender_length, sender_shown, shown_after, sender_state_run};

use crate::state::{put, put_numbers};
use calls::sender_from_fresh;
use modulation::Tx;
use refusal::Refusal;

// The whole state.
fn put_sender(tx: Tx, out: &mut [f64])
    requires { sender_length ≤ length out.old }
    ensures { out.new ≡ sender_numbers (sender_of tx) ++ drop sender_length out.old }
{
    let r = tx.resampler();
    let keying = tx.keying_numbers();
    let bits = tx.bit_numbers();
    let pending = tx.pending_numbers();
    put_numbers(r, out);
    put(out, 753, &keying);
    put(out, 761, &bits);
    put(out, 4857, &pending);
}

// The numbers at the front of the slice, where there is room for them.
fn show_sender(tx: Tx, state: &mut [f64])
    ensures { state.new ≡ sender_shown (sender_of tx) state.old }
{
    if state.len() < 4921 {
        return;
    }
    put_sender(tx, state);
}

// A twin of the resampler's: one function of both would take the two ways to show as closures, and read no plainer.
fn show_accepted(answer: Result<usize, Refusal>, tx: Tx, state: &mut [f64])
    ensures { state.new ≡ shown_after (accepted_in (reply_in answer)) (sender_of tx) state.old }
{
    match answer {
        Err(_) => {}
        Ok(_) => show_sender(tx, state),
    }
}

// A fresh sender, the calls of the script, and the state behind them.
pub fn sender_state_from_fresh(
    rate: u32,
    role: u32,
    data: &[u8],
    script: &[u64],
    samples: &mut [f32],
    answers: &mut [u64],
    state: &mut [f64],
) -> usize
    ensures { traced (ran result samples.new answers.new) state.new
        ≡ sender_state_run rate role «data».now script.now samples.old answers.old state.old }
{
    let s = sender_from_fresh(rate, role, data, script, samples, answers);
    show_accepted(s.answer, s.state, state);
    s.answer.unwrap_or(0)
}
