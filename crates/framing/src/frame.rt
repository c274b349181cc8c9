// 8-N-1 asynchronous framing. `true` is mark, which is binary 1.
ghost use Rattle.std.specs.Prelude.{◌≡◌, ◌<◌};
ghost use Rattle.framing.specs.Frame.{frame_of, fresh_deframer, deframed, waiting, with_bit, bit_of, idle_bit, data_bit, stop_bit, bad_stop, Pushes};

// One byte as ten bits: a space start bit, eight data bits lowest first, a mark stop bit.
pub fn frame_byte(b: u8) -> [bool; 10]
    ensures { result ≡ frame_of b }
{
    [
        false,
        bit(b, 0),
        bit(b, 1),
        bit(b, 2),
        bit(b, 3),
        bit(b, 4),
        bit(b, 5),
        bit(b, 6),
        bit(b, 7),
        true,
    ]
}

// Bit `k` of a byte, which has the weight 2^k.
fn bit(b: u8, k: u8) -> bool
    requires { k < 8 }
    ensures { result ≡ bit_of b k }
{
    (b >> k) % 2 == 1
}

// Reassembles bytes from sliced bits. Waits for a start bit while idle, takes the next eight bits as data, then checks the stop bit.
#[derive(Clone, Copy)]
pub struct Deframer {
    pub in_frame: bool,
    pub bit_count: u8,
    pub acc: u8,
    pub errors: u32,
}

// What one bit completed: a byte; nothing yet; or a frame whose stop bit is a space, which is no byte. Three cases, so no Option.
#[derive(Clone, Copy)]
pub enum Heard {
    Byte(u8),
    Waiting,
    BadStop,
}

// The deframer after a bit, and what the bit completed.
#[derive(Clone, Copy)]
pub struct Pushed {
    pub state: Deframer,
    pub heard: Heard,
}

impl Deframer {
    // Idle, with no errors counted.
    pub fn new() -> Deframer
        ensures { result ≡ fresh_deframer }
    {
        Deframer {
            in_frame: false,
            bit_count: 0,
            acc: 0,
            errors: 0,
        }
    }

    // How many stop bits were spaces.
    pub fn framing_errors(self) -> u32
        ensures { result ≡ self.errors }
    {
        self.errors
    }

    // Takes one bit, in any state.
    #[tactic(auto, unfolding(crate::specs::Frame::push_bit))]
    pub fn push_bit(self, mark: bool) -> Pushed
        ensures { Pushes self mark result.state result.heard }
    {
        if !self.in_frame {
            self.idle_bit(mark)
        } else if self.bit_count < 8 {
            self.data_bit(mark)
        } else {
            self.stop_bit(mark)
        }
    }

    // A space while idle is a start bit.
    #[tactic(auto, unfolding(crate::specs::Frame::idle_bit))]
    fn idle_bit(mut self, mark: bool) -> Pushed
        ensures { deframed result ≡ idle_bit self mark }
    {
        if mark {
            return self.waiting();
        }
        self.in_frame = true;
        self.bit_count = 0;
        self.acc = 0;
        self.waiting()
    }

    // One of the eight data bits, lowest first.
    #[tactic(auto, unfolding(crate::specs::Frame::data_bit))]
    fn data_bit(mut self, mark: bool) -> Pushed
        requires { self.bit_count < 8 }
        ensures { deframed result ≡ data_bit self mark }
    {
        self.acc = with_bit(self.acc, self.bit_count, mark);
        self.bit_count += 1;
        self.waiting()
    }

    // The bit in stop position: a mark gives the byte.
    #[tactic(auto, unfolding(crate::specs::Frame::stop_bit))]
    fn stop_bit(mut self, mark: bool) -> Pushed
        ensures { deframed result ≡ stop_bit self mark }
    {
        if mark {
            self.in_frame = false;
            return Pushed {
                state: self,
                heard: Heard::Byte(self.acc),
            };
        }
        self.bad_stop()
    }

    // A space in stop position: counted, up to the largest count, and no start bit.
    #[tactic(auto, unfolding(crate::specs::Frame::bad_stop))]
    fn bad_stop(mut self) -> Pushed
        ensures { deframed result ≡ bad_stop self }
    {
        self.in_frame = false;
        self.errors = self.errors.saturating_add(1);
        Pushed {
            state: self,
            heard: Heard::BadStop,
        }
    }

    // This state, and no byte.
    fn waiting(self) -> Pushed
        ensures { deframed result ≡ waiting self }
    {
        Pushed {
            state: self,
            heard: Heard::Waiting,
        }
    }
}

// The byte with data bit `k`, which has the weight 2^k.
fn with_bit(acc: u8, k: u8, mark: bool) -> u8
    requires { k < 8 }
    ensures { result ≡ with_bit acc k mark }
{
    if mark { acc | (1u8 << k) } else { acc }
}

// The step through a lent reference, as the Rust has it: thin, over the step by value.
pub fn push_bit(d: &mut Deframer, mark: bool) -> Heard
    ensures { Pushes d.old mark d.new result }
{
    let p = Deframer::push_bit(*d, mark);
    *d = p.state;
    p.heard
}
