// What a caller queues for the sender: bytes, and bit periods of idle mark.
ghost use Rattle.std.specs.Prelude.{◌≡◌};
ghost use Rattle.refusal.specs.Refusals.{reply_in};
ghost use Rattle.modulation.specs.TxRep.{sender_of};
ghost use Rattle.modulation.specs.Bits.{BitsHeld};
ghost use Rattle.modulation.specs.Queueing.{queueing, write_of, idle_mark_of, with_bits};

use crate::bits::{ask_frames, ask_marks};
use crate::tx::Tx;
use refusal::Answered;

impl Tx {
    // Queues the frames of these bytes, unless refused 33.
    pub fn write(self, data: &[u8]) -> Answered<Tx, ()>
        ensures state_value { queueing (reply_in result.answer) (sender_of result.state) ≡ write_of (sender_of self) «data».now }
    {
        let wave = self.wave;
        let mut bits = self.bits;
        let asked = ask_frames(&mut bits, wave.head, wave.waiting, data);
        let answer = asked.answer;
        let state = self.with_bits(bits, asked.waiting);
        Answered { answer, state }
    }

    // Queues n bit periods of idle mark, unless refused 33: what is queued next can't start before they are over.
    pub fn write_idle_mark(self, n: usize) -> Answered<Tx, ()>
        ensures state_value { queueing (reply_in result.answer) (sender_of result.state) ≡ idle_mark_of (sender_of self) n }
    {
        let wave = self.wave;
        let mut bits = self.bits;
        let asked = ask_marks(&mut bits, wave.head, wave.waiting, n);
        let answer = asked.answer;
        let state = self.with_bits(bits, asked.waiting);
        Answered { answer, state }
    }

    // The sender with this ring, in which so many bits wait.
    #[tactic(auto, unfolding(crate::specs::TxRep::sender_of, crate::specs::TxRep::modulator_of))]
    fn with_bits(mut self, bits: [bool; 4096], waiting: usize) -> Tx
        requires { BitsHeld bits self.wave.head waiting }
        ensures { sender_of result ≡ with_bits self bits waiting }
    {
        let mut wave = self.wave;
        wave.waiting = waiting;
        let mut state = self;
        state.bits = bits;
        state.wave = wave;
        state
    }
}
