// The receiver, exported to C.
ghost use Rattle.std.specs.Prelude.{◌≡◌};
ghost use Rattle.calls.specs.Receive.{ran, receive_run};
ghost use Rattle.snapshot.specs.ReceiverState.{shown, state_run};

use calls::received_from_fresh;
use snapshot::state_from_fresh;

pub fn morkhetta_receive(
    rate: u32,
    role: u32,
    samples: &[f32],
    script: &[u32],
    bytes: &mut [u8],
    events: &mut [u8],
    answers: &mut [u64],
) -> usize
    ensures { ran result bytes.new events.new answers.new
        ≡ receive_run rate role samples.now script.now bytes.old events.old answers.old }
{
    received_from_fresh(rate, role, samples, script, bytes, events, answers)
}

pub fn morkhetta_receiver_state(
    rate: u32,
    role: u32,
    samples: &[f32],
    script: &[u32],
    state: &mut [f64],
) -> u32
    ensures { shown result state.new ≡ state_run rate role samples.now script.now state.old }
{
    state_from_fresh(rate, role, samples, script, state)
}
