// Document 01's program: the tide lines on standard input, judged for station 7.
#![tactic(auto)]

fn main(rt: HostRuntime) {
    console::run(&mut rt.stdin(), 7);
}
