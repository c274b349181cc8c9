// Lists of calls of the sender that has no floats.
ghost use Rattle.std.specs.Prelude.{◌≡◌, ◌+◌, ◌≤◌, length};
ghost use Rattle.modulation.specs.TableTx.{TableSender};
ghost use Rattle.modulation.specs.TableTxRep.{table_of};
ghost use Rattle.calls.specs.Resample.{ran};
ghost use Rattle.calls.specs.Table.{table_kind_of, table_sends, table_run};

use crate::answers::{number_in, unless_refused};
use crate::roles::role_of;
use crate::script::{Called, Scripted, all_calls};
use modulation::TableTx;

// Kinds of calls.
#[derive(Clone, Copy)]
enum TableKind {
    Write,
    IdleMark,
    Read,
}

impl From<u64> for TableKind {
    ghost from_gives = { λ n k. k ≡ table_kind_of n };

    fn from(n: u64) -> TableKind {
        match n {
            0 => TableKind::Write,
            1 => TableKind::IdleMark,
            _ => TableKind::Read,
        }
    }
}

impl Scripted for TableTx {
    type Sample = i32;

    ghost State = { TableSender };

    ghost state_of = { table_of };

    ghost sends = { table_sends };

    fn places_for(kind: u64, n: u64) -> usize {
        match TableKind::from(kind) {
            TableKind::Read => n as usize,
            _ => 0,
        }
    }

    fn make_call(&mut self, kind: u64, n: u64, bytes: &[u8], part: &mut [i32]) -> Called {
        match TableKind::from(kind) {
            TableKind::Write => {
                let q = self.write(bytes);
                *self = q.state;
                Called {
                    number: number_in(q.answer),
                    value: 0,
                }
            }
            TableKind::IdleMark => {
                let q = self.write_idle_mark(n as usize);
                *self = q.state;
                Called {
                    number: number_in(q.answer),
                    value: 0,
                }
            }
            TableKind::Read => {
                let places = part.len();
                let g = self.read(part);
                *self = g.state;
                Called {
                    number: number_in(g.answer),
                    value: unless_refused(g.answer, places),
                }
            }
        }
    }

    fn waits(&self) -> bool {
        self.pending()
    }
}

// A fresh sender, and the calls of the script. Role 0 originates, any other number answers.
pub fn table_sent_from_fresh(
    role: u32,
    data: &[u8],
    script: &[u64],
    samples: &mut [i32],
    answers: &mut [u64],
) -> usize
    ensures { ran result samples.new answers.new
        ≡ table_run role «data».now script.now samples.old answers.old }
{
    all_calls(TableTx::new(role_of(role)), data, script, samples, answers).count
}
