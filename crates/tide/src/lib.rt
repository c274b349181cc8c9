// The tide line: a line judged, and the decoder that collects what is heard into lines, has them judged and counts the answers.
//
//   frame     the fields of the frame that a line says      specs/Frame.antt
//   judge     a line's answer, and the reading after it     specs/Judge.antt, JudgeRep.antt
//   decoder   what is heard to lines, their answers counted specs/Decoder.antt, DecoderRep.antt, Lines.antt
#![tactic(auto)]

mod decoder;
mod frame;
mod judge;

pub use decoder::{Decoder, Fed, Step};
pub use judge::Reading;
