// Lists of calls from a fresh state: what hosts in C and runs against the Rust original are given.
//
//   resample   of the resampler                                    specs/Resample.antt, Steps.antt
//   receive    of the receiver                                     specs/Receive.antt, ReceiveSteps.antt
//   script     of any sender: the runner of the next two           specs/Script.antt, ScriptSteps.antt
//   send       of the sender                                       specs/Send.antt
//   table      of the sender that has no floats                    specs/Table.antt
//   frames     framing, and deframing in any state                 specs/Frames.antt
//   shown      what a board shows, as numbers                      specs/Shown.antt
//   answers, events, roles: answers, events and roles as numbers   specs/Answers.antt, Roles.antt
#![tactic(auto)]

mod answers;
mod events;
mod frames;
mod receive;
mod resample;
mod roles;
mod script;
mod send;
mod shown;
mod table;

pub use answers::number_in;
pub use frames::{deframe_bits, frame_bytes};
pub use receive::{Call, make_call, received_from_fresh};
pub use resample::{calls_from_fresh, lengths_from_fresh, scripted_from_fresh};
pub use roles::role_of;
pub use send::{sender_from_fresh, sent_from_fresh};
pub use shown::put_board;
pub use table::table_sent_from_fresh;
