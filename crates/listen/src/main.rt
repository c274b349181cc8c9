// A recording of a call on standard input, heard by a board: the lines judged, and the reading.
#![tactic(auto)]

fn main(rt: HostRuntime) {
    listen_app::run(&rt, &mut rt.stdin());
}
