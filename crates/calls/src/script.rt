// A script of calls of a sender: two numbers for each call, its kind and n. One runner, for both senders.
ghost use Rattle.std.specs.Prelude.{◌≡◌, [], ◌∷◌, ◌++◌, ◌+◌, ◌≤◌, length, take, drop};
ghost use Rattle.calls.specs.Resample.{ran};
ghost use Rattle.calls.specs.Script.{Calls, outcome, bytes_for, calls_for, sent_from, sender_after};
ghost use Rattle.calls.specs.ScriptSteps.{Stepped, standing};

use crate::answers::put_row;
use refusal::Counting;

// The kind of a `write`, for each sender.
const WRITE: u64 = 0;

// What a call answers: its refusal, 0 where it is accepted, and its value.
#[derive(Clone, Copy)]
pub struct Called {
    pub number: u32,
    pub value: usize,
}

// A sender that a script can call.
pub trait Scripted: Copy {
    type Sample: Copy;

    // What its state means, and what its calls give.
    ghost State: { Type 0 };

    ghost state_of: { Self → State };

    ghost sends: { Calls State Self.Sample };

    // How many places a call of this kind is lent, at most.
    fn places_for(kind: u64, n: u64) -> usize
        ensures { result ≡ sends.places kind n };

    // The call of this kind, lent these bytes and these places, and the sender: handed on by value, it would be copied more often.
    fn make_call(&mut self, kind: u64, n: u64, bytes: &[u8], part: &mut [Self::Sample]) -> Called
        ensures part_after { outcome result.number result.value (state_of self.new) part.new
            ≡ sends.called kind n (state_of self.old) bytes.now part.old };

    // Whether bits wait.
    fn waits(&self) -> bool
        ensures { result ≡ sends.waits (state_of self.now) };
}

fn bytes_for(kind: u64, n: u64) -> usize
    ensures { result ≡ bytes_for kind n }
{
    if kind == WRITE { n as usize } else { 0 }
}

// How much of the data and of the samples is behind a list of calls.
#[derive(Clone, Copy)]
struct Place {
    read: usize,
    written: usize,
}

// One call, and its three numbers at `at` of the answers.
fn one_call<S: Scripted>(
    sender: &mut S,
    p: Place,
    kind: u64,
    n: u64,
    data: &[u8],
    samples: &mut [S::Sample],
    answers: &mut [u64],
    at: usize,
) -> Place
    requires { (p.read ≤ length «data».now) × (p.written ≤ length samples.old) × (at + 3 ≤ length answers.old) }
    ensures stepped { Stepped S.sends (standing (S.state_of sender.old) p.read p.written) (standing (S.state_of sender.new) result.read result.written)
        kind n «data».now samples.old samples.new (take at answers.old) (drop (at + 3) answers.old) answers.new }
    ensures within { (result.read ≤ length «data».now) × (result.written ≤ length samples.new) }
{
    let Place { read, written } = p;
    let end = read + bytes_for(kind, n).min(data.len() - read);
    let upto = written + S::places_for(kind, n).min(samples.len() - written);
    let c = sender.make_call(kind, n, &data[read..end], &mut samples[written..upto]);
    let waits = u64::from(sender.waits());
    put_row(answers, at, &[c.number as u64, c.value as u64, waits]);
    Place {
        read: end,
        written: upto,
    }
}

// Each call of the script that has room for its answer: how many were run, and the sender behind them.
pub fn all_calls<S: Scripted>(
    sender: S,
    data: &[u8],
    script: &[u64],
    samples: &mut [S::Sample],
    answers: &mut [u64],
) -> Counting<S>
    ensures answers_after { ran result.count samples.new answers.new
        ≡ sent_from S.sends (calls_for script.now answers.old)
        (S.state_of sender) «data».now script.now samples.old answers.old }
    ensures state_value { S.state_of result.state
        ≡ sender_after S.sends (calls_for script.now answers.old)
        (S.state_of sender) «data».now script.now samples.old }
{
    let calls = (script.len() / 2).min(answers.len() / 3);
    let mut state = sender;
    let mut place = Place {
        read: 0,
        written: 0,
    };
    for i in 0..calls {
        place = one_call(
            &mut state,
            place,
            script[2 * i],
            script[2 * i + 1],
            data,
            samples,
            answers,
            3 * i,
        );
    }
    Counting {
        count: calls,
        state,
    }
}
