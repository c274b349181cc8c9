// The same call as a gauge sends it that has no floats: from the table, at 8,000 a second, in PCM of 16 bits.
ghost use Rattle.std.specs.Prelude.{◌≡◌, ◌≤◌, [], length, IfOk, IfErr};
ghost use Rattle.modulation.specs.TableTxRep.{table_of};
ghost use Rattle.send_app.specs.Gauge.{samples_in, opened_table, table_sent, table_queued, table_block};

use crate::bytes::pack_table;
use crate::call::{GAP, LEAD, TRAINING, bits_for, end_of, write_header};
use crate::words::Kind;
use bell103::Role;
use modulation::TableTx;

// Samples of the whole call.
fn samples_for(text: &[u8]) -> u32
    requires { length text.now ≤ 65536 }
    ensures { (result ≡ samples_in text.now) × (result ≤ 1000000000) }
{
    let bits = bits_for(text);
    ((80 * bits + 2) / 3) as u32
}

// What stands before the text, in an empty queue.
fn opened_table(tx: TableTx) -> TableTx
    ensures { table_of result ≡ opened_table (table_of tx) }
{
    let l = tx.write_idle_mark(LEAD);
    let idle = l.state;
    let t = idle.write(&[TRAINING]);
    let trained = t.state;
    let g = trained.write_idle_mark(GAP);
    let gapped = g.state;
    let e = gapped.write(b"\n");
    e.state
}

// The sender, and how many bytes of the text are queued. No form in common with call.rt: each is proved of its sender's own model, and a
// trait over both would need a member for each of the model's words.
#[derive(Clone, Copy)]
struct TableSending {
    tx: TableTx,
    at: usize,
}

// The next 64 bytes of the text at the most, if the queue has room for them.
fn queue_table(s: TableSending, text: &[u8]) -> TableSending
    requires { s.at ≤ length text.now }
    ensures at_value { table_sent (table_of result.tx) result.at [] ≡ table_queued (table_of s.tx) text.now s.at }
    ensures at_in_bounds { result.at ≤ length text.now }
{
    let end = end_of(s.at, text.len());
    let q = s.tx.write(&text[s.at..end]);
    let answer = q.answer;
    let state = q.state;
    if answer.is_ok() {
        return TableSending { tx: state, at: end };
    }
    TableSending { tx: state, ..s }
}

// Writes the samples to standard output; whether that went well.
fn write_table(samples: &[i32]) -> bool
    requires { length samples.now ≤ 1024 }
{
    let mut bytes = io::buffer();
    pack_table(samples, &mut bytes);
    let n = 2 * samples.len();
    io::write_all(1, &bytes[..n])
}

// The next samples, into the part.
fn table_part(s: TableSending, text: &[u8], part: &mut [i32]) -> TableSending
    requires { s.at ≤ length text.now }
    ensures part_after { table_sent (table_of result.tx) result.at part.new ≡ table_block (table_of s.tx) text.now s.at part.old }
    ensures at_in_bounds { result.at ≤ length text.now }
{
    let q = queue_table(s, text);
    let r = q.tx.read(part);
    TableSending { tx: r.state, ..q }
}

// So many samples of the call, as far as they can be written: how many were, all of them or not. Idle mark follows the text by itself.
fn table_samples(tx: TableTx, text: &[u8], samples: usize) -> Result<usize, usize>
    ensures all { IfOk result (λ sent. sent ≡ samples) }
    ensures some { IfErr result (λ sent. sent ≤ samples) }
{
    let mut s = TableSending { tx, at: 0 };
    let mut sent = 0;
    while sent < samples {
        let n = (samples - sent).min(1024);
        let mut block = [0i32; 1024];
        s = table_part(s, text, &mut block[..n]);
        if !write_table(&block[..n]) {
            return Err(sent);
        }
        sent += n;
    }
    Ok(sent)
}

// Sends a text of 65,535 bytes at the most; whether all was written.
pub fn send_table(role: Role, text: &[u8]) -> bool
    requires { length text.now ≤ 65536 }
{
    let ready = opened_table(TableTx::new(role));
    let samples = samples_for(text);
    write_header(Kind::Pcm16, 8000, samples) && table_samples(ready, text, samples as usize).is_ok()
}
