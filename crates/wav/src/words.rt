// What the words of a header say.
ghost use Rattle.std.specs.Prelude.{◌≡◌};
ghost use Rattle.wav.specs.Words.{shifted, last_four, pcm_known, float_known, only8, encoding_of, is_endless};

use crate::sample::Encoding;

// The last eight bytes with one byte more on top.
pub fn shifted_in(word: u64, b: u8) -> u64
    ensures { result ≡ shifted word b }
{
    word / 256 + (b as u64) * 0x100_0000_0000_0000
}

// The last four of them.
pub fn last_four(word: u64) -> u32
    ensures { result ≡ last_four word }
{
    (word / 0x1_0000_0000) as u32
}

#[tactic(auto, unfolding(crate::specs::Words::pcm_known))]
fn pcm_known(bits: u32) -> Option<Encoding>
    ensures { result ≡ pcm_known bits }
{
    match bits {
        8 => Some(Encoding::Pcm8),
        16 => Some(Encoding::Pcm16),
        24 => Some(Encoding::Pcm24),
        32 => Some(Encoding::Pcm32),
        _ => None,
    }
}

#[tactic(auto, unfolding(crate::specs::Words::float_known))]
fn float_known(bits: u32) -> Option<Encoding>
    ensures { result ≡ float_known bits }
{
    match bits {
        32 => Some(Encoding::Float32),
        64 => Some(Encoding::Float64),
        _ => None,
    }
}

#[tactic(auto, unfolding(crate::specs::Words::only8))]
fn only_8(bits: u32, known: Option<Encoding>) -> Option<Encoding>
    ensures { result ≡ only8 bits known }
{
    if bits == 8 { known } else { None }
}

// The encoding of a format's number: 1 is PCM, 3 IEEE float, 6 A-law, 7 µ-law.
#[tactic(auto, unfolding(crate::specs::Words::encoding_of))]
pub fn encoding_of(tag: u32, bits: u32) -> Option<Encoding>
    ensures { result ≡ encoding_of tag bits }
{
    match tag {
        1 => pcm_known(bits),
        3 => float_known(bits),
        6 => only_8(bits, Some(Encoding::ALaw)),
        7 => only_8(bits, Some(Encoding::MuLaw)),
        _ => None,
    }
}

// Whether the data run to the end of the file: recorders that can't know the size say 0, or something near 2 or 4 GB.
#[tactic(auto, unfolding(crate::specs::Words::is_endless))]
pub fn endless(size: u32) -> bool
    ensures { result ≡ is_endless size }
{
    size == 0 || 0x7FFF_F000 <= size
}
