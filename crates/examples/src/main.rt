// Runs the examples that are written down for the modem's parts, and prints one line for each.
#![tactic(auto)]

mod carrier;
mod frame;
mod print;
mod resample;

fn main() {
    carrier::show();
    resample::show();
    frame::show();
}
