// A host hears a recording, from standard input.
ghost use Rattle.std.specs.Prelude.{◌≡◌, [], IfOk, IfSome};
ghost use Rattle.listen_app.specs.BlockReaderRep.{gathered};
ghost use Rattle.listen_app.specs.Host.{fresh_host};
ghost use Rattle.listen_app.specs.HostRep.{host_of, Hosts};
ghost use Rattle.listen_app.specs.Listener.{listener, view, acted, heard_bytes, ended, of_recording, of_floats, of_pcm};
ghost use Rattle.listen_app.specs.Session.{SessionSound, listening, HeardSome, HeardAll, is_cut, end_of, outcome_of};

use crate::block_reader::{BLOCK, BlockReader, Progress, hear};
use crate::complain;
use crate::host::Host;
use bell103::Role;
use std::io::{Error, Read};
use wav::{Fault, Wav};

// The host, the reader of the recording's bytes, and the block that its samples fill.
#[derive(Clone, Copy)]
struct Session {
    host: Host,
    reader: BlockReader,
    block: [f32; BLOCK],
}

// Acts on the reader's progress.
fn act_on(host: Host, reader: BlockReader, block: &[f32]) -> Host
    ensures { view (gathered reader block.now) (host_of result) ≡ acted (host_of host) (gathered reader block.now) }
{
    match reader.progress {
        Progress::None => host,
        Progress::Bad(_) => host,
        Progress::Start(rate) => host.with_rate(rate),
        Progress::Block => host.write_block(block),
    }
}

// A part of the recording.
fn hear_part(s: Session, input: &[u8]) -> Session
    requires { SessionSound s }
    ensures { SessionSound result × (listening result ≡ heard_bytes (listening s) input.now) }
{
    let mut host = s.host;
    let mut reader = s.reader;
    let mut block = s.block;
    let mut at = 0;
    while at < input.len() {
        let h = hear(reader, &mut block, input, at);
        reader = h.reader;
        at = h.at;
        host = act_on(host, reader, &block);
    }
    Session {
        host,
        reader,
        block,
    }
}

// The session after all reads, and whether the last one failed. No Result: what was heard before is told also where a read failed.
#[derive(Clone, Copy)]
struct Turn {
    session: Session,
    failed: bool,
}

// One read of the input: the session behind it, or none where the input is at its end.
fn read_part<R: Read>(input: &mut R, s: Session) -> Result<Option<Session>, Error>
    requires { SessionSound s }
    ensures { IfOk result (λ read. IfSome read (HeardSome (listening s))) }
{
    let mut part = io::buffer();
    let n = input.read(&mut part)?;
    if n == 0 {
        return Ok(None);
    }
    Ok(Some(hear_part(s, &part[..n])))
}

// Whether there is reason to read on: the recording is good so far, and what is heard can be told.
fn goes_on(reader: BlockReader, told: bool) -> bool {
    told && !matches!(reader.progress, Progress::Bad(_))
}

// All of the input. A proved loop has to end, and nothing says that the input does: the loop counts its turns, up to a number that no run
// reaches.
fn read_all<R: Read>(input: &mut R, s: Session) -> Turn
    requires { SessionSound s }
    ensures { HeardSome (listening s) result.session }
{
    let mut session = s;
    for _ in 0..u64::MAX {
        let Ok(read) = read_part(input, session) else {
            return Turn {
                session,
                failed: true,
            };
        };
        let Some(next) = read else {
            break;
        };
        session = next;
        if !goes_on(session.reader, session.host.is_told()) {
            break;
        }
    }
    Turn {
        session,
        failed: false,
    }
}

// The samples that fill no block.
fn hear_last(s: Session) -> Host
    requires { SessionSound s }
    ensures { Hosts (ended (listening s)) result }
{
    s.host.write_block(&s.block[..s.reader.n])
}

// The host that heard all that there is, how the recording ended, and whether a read failed.
#[derive(Clone, Copy)]
pub struct Closed {
    host: Host,
    end: Result<(), Fault>,
    failed: bool,
}

// Hears the input to its end, from a reader's first state on.
fn hear_all<R: Read>(input: &mut R, wav: Wav, rate: u32, station: u16, role: Role) -> Closed
    ensures { HeardAll (listener wav [] (fresh_host rate station role)) result }
{
    let first = Session {
        host: Host::new(rate, station, role),
        reader: BlockReader::new(wav),
        block: [0.0; BLOCK],
    };
    let r = read_all(input, first);
    let s = r.session;
    let end = s.reader.wav.finish();
    let host = hear_last(s);
    Closed {
        host,
        end,
        failed: r.failed,
    }
}

// A recording with a header; its rate takes the place of the one given here.
pub fn hear_recording<R: Read>(input: &mut R, station: u16, role: Role) -> Closed
    ensures { HeardAll (of_recording station role) result }
{
    hear_all(input, Wav::new(), 8000, station, role)
}

// Floats with no header.
pub fn hear_floats<R: Read>(input: &mut R, station: u16, role: Role, rate: u32) -> Closed
    ensures { HeardAll (of_floats station role rate) result }
{
    hear_all(input, Wav::raw(), rate, station, role)
}

// 16-bit numbers with no header.
pub fn hear_pcm<R: Read>(input: &mut R, station: u16, role: Role, rate: u32) -> Closed
    ensures { HeardAll (of_pcm station role rate) result }
{
    hear_all(input, Wav::raw_16(), rate, station, role)
}

// What is to be said at the end.
#[derive(Clone, Copy)]
pub enum Outcome {
    // Something could not be written, or not be read.
    Unwritten,
    Unread,
    // The recording is not one that is read.
    NoReading(Fault),
    // It has fewer samples than it should; those that it has were heard.
    Cut(Fault),
    Whole,
}

fn is_cut(fault: Fault) -> bool
    ensures { result ≡ is_cut fault }
{
    matches!(fault, Fault::FrameCut | Fault::DataCut)
}

fn end_of(end: Result<(), Fault>) -> Outcome
    ensures { result ≡ end_of end }
{
    match end {
        Ok(()) => Outcome::Whole,
        Err(fault) if is_cut(fault) => Outcome::Cut(fault),
        Err(fault) => Outcome::NoReading(fault),
    }
}

fn outcome_of(told: bool, failed: bool, end: Result<(), Fault>) -> Outcome
    ensures { result ≡ outcome_of told failed end }
{
    if told {
        if failed {
            return Outcome::Unread;
        }
        return end_of(end);
    }
    Outcome::Unwritten
}

// The last lines: what went wrong, on standard error, and the reading.
pub fn close(c: Closed) {
    let host = c.host;
    match outcome_of(host.is_told(), c.failed, c.end) {
        Outcome::Unwritten => complain::of_output(),
        Outcome::Unread => complain::of_input(),
        Outcome::NoReading(fault) => complain::of_recording(fault),
        Outcome::Cut(fault) => {
            complain::of_recording(fault);
            tell_reading(host);
        }
        Outcome::Whole => tell_reading(host),
    }
}

fn tell_reading(host: Host) {
    if !host.tell_reading() {
        complain::of_output();
    }
}
