// How a call's answer goes into a lent slice: two numbers of the resampler, the refusal and the count; and six of the receiver.
ghost use Rattle.std.specs.Prelude.{◌≡◌, ◌∷◌, ◌++◌, ◌+◌, ◌≤◌, length, take, drop};
ghost use Rattle.refusal.specs.Refusals.{reply_in};
ghost use Rattle.calls.specs.Answers.{number_in, count_in, heard_of};
ghost use Rattle.calls.specs.Script.{unless_refused};

use refusal::Refusal;

// Document 01's number, 0 where the call is accepted; and the count, 0 where it is refused.
#[derive(Clone, Copy)]
pub struct Numbers {
    pub number: u32,
    pub count: usize,
}

pub(crate) fn numbers_of(answer: Result<usize, Refusal>) -> Numbers
    ensures { (result.number ≡ number_in (reply_in answer)) × (result.count ≡ count_in (reply_in answer)) }
{
    match answer {
        Ok(n) => Numbers {
            number: 0,
            count: n,
        },
        Err(r) => Numbers {
            number: u32::from(r),
            count: 0,
        },
    }
}

// Writes a row at `at`.
pub(crate) fn put_row<T: Copy>(out: &mut [T], at: usize, row: &[T])
    requires { at + length row.now ≤ length out.old }
    ensures { out.new ≡ take at out.old ++ (row.now ++ drop (at + length row.now) out.old) }
{
    out[at..at + row.len()].copy_from_slice(row);
}

pub(crate) fn unless_refused(answer: Result<(), Refusal>, n: usize) -> usize
    ensures { result ≡ unless_refused (reply_in answer) n }
{
    match answer {
        Ok(()) => n,
        Err(_) => 0,
    }
}

// Writes the two numbers at `at`.
pub(crate) fn tell(answers: &mut [u64], at: usize, t: Numbers)
    requires { at + 2 ≤ length answers.old }
    ensures { answers.new ≡ take at answers.old ++ t.number ∷ t.count ∷ drop (at + 2) answers.old }
{
    put_row(answers, at, &[t.number as u64, t.count as u64]);
}

// What a call of the receiver answers: the write's refusal, 0 where it is accepted; bytes read; events taken; carrier, 1 or 0; framing errors
// since fresh; and the write's bad stops.
#[derive(Clone, Copy)]
pub struct Heard {
    pub number: u32,
    pub bytes: usize,
    pub events: usize,
    pub carrier: u32,
    pub errors: u32,
    pub bad_stops: usize,
}

pub fn number_in(answer: Result<(), Refusal>) -> u32
    ensures { result ≡ number_in (reply_in answer) }
{
    match answer {
        Ok(()) => 0,
        Err(r) => u32::from(r),
    }
}

// Writes the six numbers at `at`.
pub(crate) fn tell_heard(answers: &mut [u64], at: usize, h: Heard)
    requires { at + 6 ≤ length answers.old }
    ensures { answers.new ≡ take at answers.old ++ (heard_of h ++ drop (at + 6) answers.old) }
{
    let row = [
        h.number as u64,
        h.bytes as u64,
        h.events as u64,
        h.carrier as u64,
        h.errors as u64,
        h.bad_stops as u64,
    ];
    put_row(answers, at, &row);
}
