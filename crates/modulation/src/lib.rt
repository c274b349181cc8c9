// The sender: bytes to bits, bits to tones, tones to samples at the device's rate (tx.rs, and nco.rs's Nco). What is inside is private; `modem`
// gives `Tx` on.
//
//   bits       the bits that wait                            specs/Bits.antt, Requests.antt
//   nco        the oscillator                                specs/Nco.antt
//   modulate   one pass over the unwritten rest of a slice   specs/Tone.antt, Modulator.antt, ModulatorRep.antt
//   numbers    what waits, as it is shown                    specs/Numbers.antt
//   tx         the sender                                    specs/Tx.antt, TxRep.antt
//   queueing   what a caller queues                          specs/Queueing.antt
//   table      a turn of the sine in 1,600 whole numbers     specs/Table.antt
//   table_tx   the sender that has no floats                 specs/TableTx.antt, TableTxRep.antt
#![tactic(auto)]

mod bits;
mod modulate;
mod nco;
mod numbers;
mod queueing;
mod table;
mod table_tx;
mod tx;

pub use table_tx::TableTx;
pub use tx::Tx;
