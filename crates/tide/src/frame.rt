// The frame that a line of digits says.
ghost use Rattle.std.specs.Prelude.{◌≡◌, true, ◌<◌};
ghost use Rattle.hexadecimal.specs.Hex.{all_hex, unhex};
ghost use Rattle.tide.specs.Frame.{reader_of, station_of, stamp_of, age_of, level_of, signed};

use hexadecimal::byte;

// A line of digits.
#[derive(Clone, Copy)]
pub(crate) struct Frame<'a> {
    line: &'a [u8],
    pub ghost digits: { all_hex line.now ≡ true },
}

impl<'a> Frame<'a> {
    pub(crate) fn new(line: &'a [u8]) -> Frame<'a>
        requires { all_hex line.now ≡ true }
        ensures { result.line.now ≡ line.now }
    {
        Frame { line }
    }

    pub(crate) fn reader(self) -> u32
        ensures { result ≡ reader_of (unhex self.entry.line.now) }
    {
        byte(self.line, 1)
    }

    #[tactic(auto, unfolding(crate::specs::Frame::station_of))]
    pub(crate) fn station(self) -> u32
        ensures { result ≡ station_of (unhex self.entry.line.now) }
    {
        256 * byte(self.line, 3) + byte(self.line, 4)
    }

    #[tactic(auto, unfolding(crate::specs::Frame::stamp_of))]
    pub(crate) fn stamp(self) -> u32
        ensures { result ≡ stamp_of (unhex self.entry.line.now) }
    {
        16777216 * byte(self.line, 5)
            + 65536 * byte(self.line, 6)
            + 256 * byte(self.line, 7)
            + byte(self.line, 8)
    }

    #[tactic(auto, unfolding(crate::specs::Frame::age_of))]
    pub(crate) fn age(self) -> u32
        ensures { result ≡ age_of (unhex self.entry.line.now) }
    {
        byte(self.line, 9)
    }

    // The level's sixteen bits.
    #[tactic(auto, unfolding(crate::specs::Frame::level_of))]
    pub(crate) fn level_bits(self) -> u32
        ensures { (result ≡ level_of (unhex self.entry.line.now)) × (result < 65536) }
    {
        256 * byte(self.line, 10) + byte(self.line, 11)
    }
}

// The number that sixteen bits say, with a sign.
#[tactic(auto, unfolding(crate::specs::Frame::signed))]
pub(crate) fn level_of(v: u32) -> i16
    requires { v < 65536 }
    ensures { result ≡ signed v }
{
    if v < 32768 {
        return v as i16;
    }
    let k = (65535 - v) as i16;
    -1 - k
}
