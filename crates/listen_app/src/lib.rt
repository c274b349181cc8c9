// A recording on standard input, heard by a board: what `listen` does.
//
//   words          what the words of the command ask for   specs/Words.antt
//   block_reader   samples of the recording, in blocks     specs/BlockReader.antt
//   host           the board that hears the blocks         specs/Host.antt
//   session        standard input, to its end              specs/Session.antt; what is heard of any bytes: specs/Listener.antt
//   complain       a line on standard error
#![tactic(auto)]

mod block_reader;
mod complain;
mod host;
mod session;
mod words;

use std::env::Env;
use std::io::Read;
use words::Request;

// Hears the input, which is standard input, as the words of the command say.
pub fn run<E: Env, R: Read>(env: &E, input: &mut R) {
    match words::read(env) {
        Ok(Request::Recording { station, role }) => {
            session::close(session::hear_recording(input, station, role))
        }
        Ok(
            Request::Floats {
                station,
                role,
                rate,
            },
        ) => session::close(session::hear_floats(input, station, role, rate)),
        Ok(
            Request::Pcm {
                station,
                role,
                rate,
            },
        ) => session::close(session::hear_pcm(input, station, role, rate)),
        Err(why) => complain::of_words(why),
    }
}
