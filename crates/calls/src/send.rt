// Lists of calls of the sender.
ghost use Rattle.std.specs.Prelude.{◌≡◌, ◌+◌, ◌≤◌, length};
ghost use Rattle.refusal.specs.Refusals.{reply_in};
ghost use Rattle.modulation.specs.Tx.{Sender};
ghost use Rattle.modulation.specs.TxRep.{sender_of};
ghost use Rattle.calls.specs.Answers.{accepted_in, count_in};
ghost use Rattle.calls.specs.Resample.{ran};
ghost use Rattle.calls.specs.Send.{amplitude_in, kind_of, sends, send_run, sent, sender_run};

use crate::answers::{number_in, numbers_of, unless_refused};
use crate::roles::role_of;
use crate::script::{Called, Scripted, all_calls};
use modulation::Tx;
use refusal::Answered;

// Kinds of calls.
#[derive(Clone, Copy)]
enum Kind {
    Write,
    IdleMark,
    Amplitude,
    Read,
    SamplesForBits,
}

impl From<u64> for Kind {
    ghost from_gives = { λ n k. k ≡ kind_of n };

    fn from(n: u64) -> Kind {
        match n {
            0 => Kind::Write,
            1 => Kind::IdleMark,
            2 => Kind::Amplitude,
            3 => Kind::Read,
            _ => Kind::SamplesForBits,
        }
    }
}

fn amplitude_in(n: u64) -> f32
    ensures { result ≡ amplitude_in n }
{
    let bits = n % 4294967296;
    // Above an infinity's bits, but for the sign, stand those of the NaNs.
    if 0x7F80_0000 < bits % 0x8000_0000 {
        return 0.0f32 / 0.0f32;
    }
    f32::from_bits(bits as u32)
}

impl Scripted for Tx {
    type Sample = f32;

    ghost State = { Sender };

    ghost state_of = { sender_of };

    ghost sends = { sends };

    fn places_for(kind: u64, n: u64) -> usize {
        match Kind::from(kind) {
            Kind::Read => n as usize,
            _ => 0,
        }
    }

    fn make_call(&mut self, kind: u64, n: u64, bytes: &[u8], part: &mut [f32]) -> Called {
        match Kind::from(kind) {
            Kind::Write => {
                let q = self.write(bytes);
                *self = q.state;
                Called {
                    number: number_in(q.answer),
                    value: 0,
                }
            }
            Kind::IdleMark => {
                let q = self.write_idle_mark(n as usize);
                *self = q.state;
                Called {
                    number: number_in(q.answer),
                    value: 0,
                }
            }
            Kind::Amplitude => {
                let a = self.set_amplitude(amplitude_in(n));
                *self = a.state;
                Called {
                    number: number_in(a.answer),
                    value: 0,
                }
            }
            Kind::Read => {
                let places = part.len();
                let g = self.read(part);
                *self = g.state;
                Called {
                    number: number_in(g.answer),
                    value: unless_refused(g.answer, places),
                }
            }
            Kind::SamplesForBits => {
                let t = numbers_of(self.samples_for_bits(n as usize));
                Called {
                    number: t.number,
                    value: t.count,
                }
            }
        }
    }

    fn waits(&self) -> bool {
        self.pending()
    }
}

// A fresh sender, and the calls of the script, none where `new` refuses the rate: how many were run, and the sender behind them. Role 0
// originates, any other number answers.
pub fn sender_from_fresh(
    rate: u32,
    role: u32,
    data: &[u8],
    script: &[u64],
    samples: &mut [f32],
    answers: &mut [u64],
) -> Answered<Tx, usize>
    ensures state_after { sent (accepted_in (reply_in result.answer)) (ran (count_in (reply_in result.answer)) samples.new answers.new) (sender_of result.state)
        ≡ sender_run rate role «data».now script.now samples.old answers.old }
{
    let made = Tx::new(rate, role_of(role));
    let answer = made.answer;
    let fresh = made.state;
    match answer {
        Err(why) => Answered {
            answer: Err(why),
            state: fresh,
        },
        Ok(()) => {
            let e = all_calls(fresh, data, script, samples, answers);
            Answered {
                answer: Ok(e.count),
                state: e.state,
            }
        }
    }
}

// The same for a caller that wants no state.
pub fn sent_from_fresh(
    rate: u32,
    role: u32,
    data: &[u8],
    script: &[u64],
    samples: &mut [f32],
    answers: &mut [u64],
) -> usize
    ensures { ran result samples.new answers.new
        ≡ send_run rate role «data».now script.now samples.old answers.old }
{
    let s = sender_from_fresh(rate, role, data, script, samples, answers);
    s.answer.unwrap_or(0)
}
