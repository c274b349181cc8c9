// A text on standard input, sent as a call in a WAV recording on standard output: what `send` does.
//
//   words     what the words of the command ask for     specs/Words.antt
//   header    the recording's header                    specs/Header.antt
//   bytes     samples as bytes                          specs/Bytes.antt
//   call      the call, block by block                  specs/Call.antt
//   gauge     the same call from the table              specs/Gauge.antt
//   text      the text, from the source asked for
//   complain  a line on standard error
#![tactic(auto)]

mod bytes;
mod call;
mod complain;
mod gauge;
mod header;
mod text;
mod words;

use std::env::Env;

// Sends standard input as the words of the command say.
pub fn run<E: Env>(env: &E) {
    match words::read(env) {
        Ok(call) => text::send_text(call.role, call.source),
        Err(why) => complain::of_words(why),
    }
}
