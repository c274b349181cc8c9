// Samples of a recording, gathered into blocks.
ghost use Rattle.std.specs.Prelude.{◌≡◌, ◌<◌, length};
ghost use Rattle.listen_app.specs.BlockReader.{BlockReaderSound, with_sample, reader_out, is_quiet};
ghost use Rattle.listen_app.specs.BlockReaderRep.{gathered, filled, Fills};
ghost use Rattle.listen_app.specs.Listener.{Hears};

use wav::{Fault, Out, Wav};

// The most samples that a write takes.
pub const BLOCK: usize = 1024;

// What the last byte brought: nothing to act on, the header, a full block, or why the recording is not read.
#[derive(Clone, Copy)]
pub enum Progress {
    None,
    Start(u32),
    Block,
    Bad(Fault),
}

// A reader of the recording. Its samples fill a block that is lent.
#[derive(Clone, Copy)]
pub struct BlockReader {
    pub(crate) wav: Wav,
    // How many samples of the block are in; 0 where it is full too.
    pub(crate) n: usize,
    pub(crate) progress: Progress,
}

// The reader once it has something to act on, and how far it has read.
#[derive(Clone, Copy)]
pub struct Heard {
    pub(crate) reader: BlockReader,
    pub(crate) at: usize,
}

// The part of a reader that a byte changes beside its `Wav`: small, so that no byte copies much.
#[derive(Clone, Copy)]
struct Filling {
    n: usize,
    progress: Progress,
}

impl BlockReader {
    pub fn new(wav: Wav) -> BlockReader
        ensures { (result.n ≡ 0) × (result.wav ≡ wav) }
    {
        BlockReader {
            wav,
            n: 0,
            progress: Progress::None,
        }
    }
}

impl Filling {
    // With one sample more. A full block is as good as an empty one: who hears of it takes it away.
    fn with_sample(self, x: f32, block: &mut [f32; BLOCK]) -> Filling
        requires { BlockReaderSound block.old self.n }
        ensures { Fills (λ v w. with_sample (filled v self block.old) w x) result block.new }
    {
        let n = self.n;
        block[n] = x;
        if n + 1 == BLOCK {
            return Filling {
                n: 0,
                progress: Progress::Block,
            };
        }
        Filling {
            n: n + 1,
            progress: Progress::None,
        }
    }

    // With what a byte brought.
    fn after(self, out: Out, block: &mut [f32; BLOCK]) -> Filling
        requires { BlockReaderSound block.old self.n }
        ensures { Fills (λ v w. reader_out out (filled v self block.old) w) result block.new }
    {
        match out {
            Out::Going => Filling {
                progress: Progress::None,
                ..self
            },
            Out::Start(rate) => Filling {
                progress: Progress::Start(rate),
                ..self
            },
            Out::Sample(x) => self.with_sample(x, block),
            Out::Bad(fault) => Filling {
                progress: Progress::Bad(fault),
                ..self
            },
        }
    }
}

fn is_quiet(f: Filling) -> bool
    ensures { result ≡ is_quiet f.progress }
{
    matches!(f.progress, Progress::None)
}

// Bytes from this place on, up to the first progress.
pub fn hear(reader: BlockReader, block: &mut [f32; BLOCK], input: &[u8], from: usize) -> Heard
    requires { BlockReaderSound block.old reader.n × (from < length input.now) }
    ensures { Hears (gathered reader block.old) input.now from (gathered result.reader block.new) result.at }
{
    let mut wav = reader.wav;
    let mut f = Filling {
        n: reader.n,
        progress: Progress::None,
    };
    let mut i = from;
    while i < input.len() && is_quiet(f) {
        let s = wav.add_byte(input[i]);
        wav = s.state;
        let out = s.out;
        f = f.after(out, block);
        i += 1;
    }
    let reader = BlockReader {
        wav,
        n: f.n,
        progress: f.progress,
    };
    Heard { reader, at: i }
}
