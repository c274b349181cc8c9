// The recording's header: one channel of 32-bit floats, or of 16-bit PCM.
ghost use Rattle.std.specs.Prelude.{◌≡◌, ◌+◌, ◌≤◌, length};
ghost use Rattle.send_app.specs.Header.{header_of, blank_header, with_word};
ghost use Rattle.send_app.specs.declared.words.Kind.TheVariants as kind;

// A word's four bytes, from `at` on, low byte first.
pub fn put_word(bytes: &mut [u8], at: usize, n: u32)
    requires { at + 4 ≤ length bytes.old }
    ensures { bytes.new ≡ with_word bytes.old at n }
{
    let [b0, b1, b2, b3] = n.to_le_bytes();
    bytes[at] = b0;
    bytes[at + 1] = b1;
    bytes[at + 2] = b2;
    bytes[at + 3] = b3;
}

// The header of any recording of floats, with zeros for its length, its rate, its bytes a second, its frames and its size.
fn blank_float() -> [u8; 58]
    ensures { result ≡ blank_header kind.Float }
{
    *b"RIFF\0\0\0\0WAVEfmt \x12\0\0\0\x03\0\x01\0\0\0\0\0\0\0\0\0\x04\0\x20\0\0\0fact\x04\0\0\0\0\0\0\0data\0\0\0\0"
}

// All before the floats, so many of them.
pub fn header_float(rate: u16, samples: u32) -> [u8; 58]
    requires { samples ≤ 1000000000 }
    ensures { result ≡ header_of kind.Float rate samples }
{
    let size = samples * 4;
    let total = size + 50;
    let per_second = rate as u32;
    let flow = per_second * 4;
    let mut head = blank_float();
    put_word(&mut head, 4, total);
    put_word(&mut head, 24, per_second);
    put_word(&mut head, 28, flow);
    put_word(&mut head, 46, samples);
    put_word(&mut head, 54, size);
    head
}

// The header of any recording of 16-bit PCM, with zeros likewise.
fn blank_pcm() -> [u8; 44]
    ensures { result ≡ blank_header kind.Pcm16 }
{
    *b"RIFF\0\0\0\0WAVEfmt \x10\0\0\0\x01\0\x01\0\0\0\0\0\0\0\0\0\x02\0\x10\0data\0\0\0\0"
}

// All before the 16-bit samples, so many of them.
pub fn header_pcm(rate: u16, samples: u32) -> [u8; 44]
    requires { samples ≤ 1000000000 }
    ensures { result ≡ header_of kind.Pcm16 rate samples }
{
    let size = samples * 2;
    let total = size + 36;
    let per_second = rate as u32;
    let flow = per_second * 2;
    let mut head = blank_pcm();
    put_word(&mut head, 4, total);
    put_word(&mut head, 24, per_second);
    put_word(&mut head, 28, flow);
    put_word(&mut head, 40, size);
    head
}
