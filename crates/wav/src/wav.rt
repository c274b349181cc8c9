// The reader. A recording is a row of chunks, each with a name and a size; its header is read in words of four bytes, low byte first.
ghost use Rattle.std.specs.Prelude.{◌≡◌};
ghost use Rattle.wav.specs.Sample.{bytes_in};
ghost use Rattle.wav.specs.Wav.{fresh_wav, raw_wav, raw16_wav, moved, framed, going, bad, fixed, skip, padded, named, format_size, format_word, rate_word, shape_word};
ghost use Rattle.wav.specs.Wav.{settle, settle_as, data_size, start, sampled, over_others, next_frame, frame_over, done, add_byte, finish_frame, finish_of};

use crate::sample::{Encoding, bytes_in, sample};
use crate::words::{encoding_of, endless, last_four, shifted_in};
use refusal::rate_ok;

// Why a recording is not read, or not to its end.
#[derive(Clone, Copy)]
pub enum Fault {
    // The first word is not RIFF.
    Riff,
    // The third word is not WAVE.
    Wave,
    // The format chunk is too short.
    FormatSize,
    // None that is read: PCM of 8, 16, 24 or 32 bits, floats of 32 or 64, G.711.
    Encoding,
    Channels,
    // Outside 8,000 to 48,000.
    Rate,
    // A frame is not one sample for each channel.
    Align,
    // Data before its format.
    NoFormat,
    // The data are no whole number of frames.
    Ragged,
    HeaderCut,
    FrameCut,
    // Fewer frames than the header says.
    DataCut,
}

// What the next bytes are.
#[derive(Clone, Copy)]
pub enum Place {
    Riff,
    Length,
    Wave,
    // A chunk's name, and its size by the name.
    Name,
    FormatSize,
    DataSize,
    OtherSize,
    // The words of a format chunk: encoding and channels, rate, bytes a second, bytes of a frame and bits of a sample.
    Format,
    Rate,
    Flow,
    Align,
    // Of an extensible one: eight bytes more, and the encoding.
    Extra,
    Sub,
    // What of a chunk is not read.
    Skip,
    // The first channel's sample of a frame, and the other channels'.
    Sample,
    Rest,
    Over,
    Bad(Fault),
}

// A reader: where it stands in the recording, and what it has read of the format.
#[derive(Clone, Copy)]
pub struct Wav {
    place: Place,
    // How many bytes of it are to come.
    left: u64,
    // Its last eight bytes, the latest on top.
    word: u64,
    // How many bytes of the format chunk stand behind the words that are read.
    rest: u64,
    // The format chunk's words: encoding and channels, rate, bytes of a frame and bits of a sample.
    format: u32,
    rate: u32,
    shape: u32,
    // Bytes of a frame, 0 before the format is known.
    align: u32,
    // How samples are written, and the bytes of one.
    encoding: Encoding,
    width: u32,
    // Frames to come; 0 where they run to the end of the file.
    frames: u32,
}

// What a byte completes: nothing, the header with its rate, a sample; or why the recording is not read.
#[derive(Clone, Copy)]
pub enum Out {
    Going,
    Start(u32),
    Sample(f32),
    Bad(Fault),
}

// The reader after a byte, and what the byte completes.
#[derive(Clone, Copy)]
pub struct Step {
    pub state: Wav,
    pub out: Out,
}

// The names, as words.
const RIFF: u32 = 0x4646_4952;

const WAVE: u32 = 0x4556_4157;

const FMT: u32 = 0x2074_6D66;

const DATA: u32 = 0x6174_6164;

impl Wav {
    // Before the first byte of a recording.
    pub fn new() -> Wav
        ensures { result ≡ fresh_wav }
    {
        Wav {
            place: Place::Riff,
            left: 4,
            word: 0,
            rest: 0,
            format: 0,
            rate: 0,
            shape: 0,
            align: 0,
            encoding: Encoding::Pcm16,
            width: 2,
            frames: 0,
        }
    }

    // Before the first of 32-bit floats that have no header.
    pub fn raw() -> Wav
        ensures { result ≡ raw_wav }
    {
        Wav {
            place: Place::Sample,
            align: 4,
            encoding: Encoding::Float32,
            width: 4,
            ..Wav::new()
        }
    }

    // Before the first of 16-bit PCM that has no header.
    pub fn raw_16() -> Wav
        ensures { result ≡ raw16_wav }
    {
        Wav {
            place: Place::Sample,
            left: 2,
            align: 2,
            ..Wav::new()
        }
    }

    // One byte.
    #[tactic(auto, unfolding(crate::specs::Wav::add_byte))]
    pub fn add_byte(self, b: u8) -> Step
        ensures { result ≡ add_byte self b }
    {
        let word = shifted_in(self.word, b);
        if 1 < self.left {
            return Step {
                state: Wav {
                    left: self.left - 1,
                    word,
                    ..self
                },
                out: Out::Going,
            };
        }
        self.done(last_four(word), word)
    }

    // The end of the file.
    #[tactic(auto, unfolding(crate::specs::Wav::finish_of))]
    pub fn finish(self) -> Result<(), Fault>
        ensures { result ≡ finish_of self }
    {
        match self.place {
            Place::Sample => self.finish_frame(),
            Place::Rest => Err(Fault::FrameCut),
            Place::Over => Ok(()),
            Place::Bad(fault) => Err(fault),
            _ => Err(Fault::HeaderCut),
        }
    }

    // The end of the file where a frame begins, or in its first sample.
    #[tactic(auto, unfolding(crate::specs::Wav::finish_frame))]
    fn finish_frame(self) -> Result<(), Fault>
        ensures { result ≡ finish_frame self }
    {
        if self.left != self.width as u64 {
            return Err(Fault::FrameCut);
        }
        if self.frames != 0 {
            return Err(Fault::DataCut);
        }
        Ok(())
    }

    // On to a place of so many bytes.
    fn moved(self, place: Place, left: u64) -> Wav
        ensures { result ≡ moved self place left }
    {
        Wav {
            place,
            left,
            word: 0,
            ..self
        }
    }

    fn going(self, place: Place, left: u64) -> Step
        ensures { result ≡ going self place left }
    {
        Step {
            state: self.moved(place, left),
            out: Out::Going,
        }
    }

    // Nothing more is read.
    fn bad(self, fault: Fault) -> Step
        ensures { result ≡ bad self fault }
    {
        Step {
            state: self.moved(Place::Bad(fault), 1),
            out: Out::Bad(fault),
        }
    }

    // A word that has to be as it is in every recording.
    #[tactic(auto, unfolding(crate::specs::Wav::fixed))]
    fn fixed(self, as_wanted: bool, next: Place, fault: Fault) -> Step
        ensures { result ≡ fixed self as_wanted next fault }
    {
        if as_wanted {
            return self.going(next, 4);
        }
        self.bad(fault)
    }

    // Over so many bytes to the next chunk.
    #[tactic(auto, unfolding(crate::specs::Wav::skip))]
    fn skip(self, n: u64) -> Step
        ensures { result ≡ skip self n }
    {
        if n == 0 {
            return self.going(Place::Name, 4);
        }
        self.going(Place::Skip, n)
    }

    #[tactic(auto, unfolding(crate::specs::Wav::named))]
    fn named(self, name: u32) -> Step
        ensures { result ≡ named self name }
    {
        match name {
            FMT => self.going(Place::FormatSize, 4),
            DATA => self.going(Place::DataSize, 4),
            _ => self.going(Place::OtherSize, 4),
        }
    }

    // A format chunk has four words at least. A chunk of odd size has a byte behind it.
    #[tactic(auto, unfolding(crate::specs::Wav::format_size))]
    fn format_size(mut self, size: u32) -> Step
        ensures { result ≡ format_size self size }
    {
        if size < 16 {
            return self.bad(Fault::FormatSize);
        }
        self.rest = (size - 16) as u64 + (size % 2) as u64;
        self.going(Place::Format, 4)
    }

    // A chunk that is not read.
    fn other_size(self, size: u32) -> Step
        ensures { result ≡ skip self (padded size) }
    {
        self.skip(size as u64 + (size % 2) as u64)
    }

    fn format_word(mut self, word: u32) -> Step
        ensures { result ≡ format_word self word }
    {
        self.format = word;
        self.going(Place::Rate, 4)
    }

    fn rate_word(mut self, word: u32) -> Step
        ensures { result ≡ rate_word self word }
    {
        self.rate = word;
        self.going(Place::Flow, 4)
    }

    // The last word of a plain format; an extensible one (FFFE) has its encoding further on.
    #[tactic(auto, unfolding(crate::specs::Wav::shape_word))]
    fn shape_word(mut self, word: u32) -> Step
        ensures { result ≡ shape_word self word }
    {
        self.shape = word;
        let tag = self.format % 65536;
        if tag != 0xFFFE {
            return self.settle(tag);
        }
        let rest = self.rest;
        if rest < 24 {
            return self.bad(Fault::FormatSize);
        }
        self.rest = rest - 12;
        self.going(Place::Extra, 8)
    }

    // The format is known: is it one that is read?
    #[tactic(auto, unfolding(crate::specs::Wav::settle))]
    fn settle(self, tag: u32) -> Step
        ensures { result ≡ settle self tag }
    {
        match encoding_of(tag, self.shape / 65536) {
            Some(encoding) => self.settle_as(encoding),
            None => self.bad(Fault::Encoding),
        }
    }

    #[tactic(auto, unfolding(crate::specs::Wav::settle_as))]
    fn settle_as(self, encoding: Encoding) -> Step
        ensures { result ≡ settle_as self encoding }
    {
        let align = self.shape % 65536;
        let channels = self.format / 65536;
        let width = bytes_in(encoding);
        if channels == 0 {
            return self.bad(Fault::Channels);
        }
        if !rate_ok(self.rate) {
            return self.bad(Fault::Rate);
        }
        if align != channels * width {
            return self.bad(Fault::Align);
        }
        self.framed(align, encoding, width).skip(self.rest)
    }

    // With frames of so many bytes, and samples of this encoding, of so many.
    fn framed(self, align: u32, encoding: Encoding, width: u32) -> Wav
        requires { width ≡ bytes_in encoding }
        ensures { result ≡ framed self align encoding }
    {
        Wav {
            align,
            encoding,
            width,
            ..self
        }
    }

    // The data begin.
    #[tactic(auto, unfolding(crate::specs::Wav::data_size))]
    fn data_size(self, size: u32) -> Step
        ensures { result ≡ data_size self size }
    {
        let align = self.align;
        if align == 0 {
            return self.bad(Fault::NoFormat);
        }
        if endless(size) {
            return self.start(0);
        }
        if size % align != 0 {
            return self.bad(Fault::Ragged);
        }
        self.start(size / align)
    }

    fn start(mut self, frames: u32) -> Step
        ensures { result ≡ start self frames }
    {
        self.frames = frames;
        Step {
            state: self.moved(Place::Sample, self.width as u64),
            out: Out::Start(self.rate),
        }
    }

    // The first channel's sample is in.
    #[tactic(auto, unfolding(crate::specs::Wav::sampled))]
    fn sampled(self, word: u64) -> Step
        ensures { result ≡ sampled self word }
    {
        Step {
            state: self.over_others(),
            out: Out::Sample(sample(self.encoding, word)),
        }
    }

    // Over the other channels.
    #[tactic(auto, unfolding(crate::specs::Wav::over_others))]
    fn over_others(self) -> Wav
        ensures { result ≡ over_others self }
    {
        if self.width < self.align {
            return self.moved(Place::Rest, (self.align - self.width) as u64);
        }
        self.next_frame()
    }

    #[tactic(auto, unfolding(crate::specs::Wav::next_frame))]
    fn next_frame(mut self) -> Wav
        ensures { result ≡ next_frame self }
    {
        let frames = self.frames;
        let width = self.width as u64;
        if frames == 0 {
            return self.moved(Place::Sample, width);
        }
        if frames == 1 {
            return self.moved(Place::Over, 1);
        }
        self.frames = frames - 1;
        self.moved(Place::Sample, width)
    }

    // The place's last byte is in: the last four are a number, and the last eight.
    #[tactic(auto, unfolding(crate::specs::Wav::done))]
    fn done(self, n: u32, word: u64) -> Step
        ensures { result ≡ done self.place self n word }
    {
        match self.place {
            Place::Riff => self.fixed(n == RIFF, Place::Length, Fault::Riff),
            Place::Length => self.going(Place::Wave, 4),
            Place::Wave => self.fixed(n == WAVE, Place::Name, Fault::Wave),
            Place::Name => self.named(n),
            Place::FormatSize => self.format_size(n),
            Place::DataSize => self.data_size(n),
            Place::OtherSize => self.other_size(n),
            Place::Format => self.format_word(n),
            Place::Rate => self.rate_word(n),
            Place::Flow => self.going(Place::Align, 4),
            Place::Align => self.shape_word(n),
            Place::Extra => self.going(Place::Sub, 4),
            Place::Sub => self.settle(n % 65536),
            Place::Skip => self.going(Place::Name, 4),
            Place::Sample => self.sampled(word),
            Place::Rest => self.frame_over(),
            Place::Over => self.going(Place::Over, 1),
            Place::Bad(fault) => self.bad(fault),
        }
    }

    fn frame_over(self) -> Step
        ensures { result ≡ frame_over self }
    {
        Step {
            state: self.next_frame(),
            out: Out::Going,
        }
    }
}
