// A text on standard input, sent as a call: a WAV recording on standard output.
#![tactic(auto)]

fn main(rt: HostRuntime) {
    send_app::run(&rt);
}
