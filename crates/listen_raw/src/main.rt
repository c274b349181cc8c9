// The same on floats with no header, two of which no board takes.
#![tactic(auto)]

fn main(rt: HostRuntime) {
    listen_app::run(&rt, &mut rt.stdin());
}
