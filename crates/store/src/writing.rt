// Settings written into a store.
ghost use Rattle.std.specs.Prelude.{◌≡◌, ◌+◌, ◌≤◌, length};
ghost use Rattle.std.proofs.Math.Seq.{paste};
ghost use Rattle.refusal.specs.Refusals.{reply_in};
ghost use Rattle.store.specs.Store.{first_unused, writing, write_of};

use crate::line::line_of;
use crate::reading::store_len;
use bell103::Role;
use refusal::{Refusal, check_rate};

// The place of the first unused byte: behind the last 0A of the store.
pub fn unused_from(buffer: &[u8]) -> usize
    ensures { result ≡ first_unused buffer.now }
{
    for at in (0..store_len(buffer)).rev() {
        if buffer[at] == 10 {
            return at + 1;
        }
    }
    0
}

// Stores the line from `at` on, front to back: the 0A is the last byte stored, so that before it nothing is changed that a reader reads.
fn put_line(buffer: &mut [u8], at: usize, line: &[u8; 15])
    requires { (at + 15 ≤ length buffer.old) × (length line.now ≡ 15) }
    ensures { buffer.new ≡ paste buffer.old at line.now 15 }
{
    for k in 0..15 {
        buffer[at + k] = line[k];
    }
}

// Writes one line of settings at the first unused byte; 1, 2 or 41 where that is refused, and then nothing is stored.
#[tactic(auto, unfolding(crate::specs::Store::write_of, crate::specs::Store::write_number, refusal::specs::Refusals::first))]
pub fn write(buffer: &mut [u8], rate: u32, station: u16, role: Role) -> Result<(), Refusal>
    ensures { writing (reply_in result) buffer.new ≡ write_of buffer.old rate station role }
{
    check_rate(rate)?;
    if station == 0 {
        return Err(Refusal::Station);
    }
    let at = unused_from(buffer);
    let n = store_len(buffer);
    if n - at < 15 {
        return Err(Refusal::StoreFull);
    }
    let line = line_of(rate, station, role);
    put_line(buffer, at, &line);
    Ok(())
}
