// Replays recorded calls: reads them from standard input, line by line, runs the receiver, the resampler and the
// sender on them, and prints what these answer. The file `stdout` has what the Rust original answered.
//
//     # words         printed again
//     S x x ..        patterns of samples, or bytes, hexadecimal, join the block
//     N x n           n times the pattern x joins it
//     B x h           samples x and -x join it as f32, four for each digit of h, highest bit first: 1 is x, 0 is -x
//     R rate role     a fresh receiver; role 0 originates, 1 answers
//     W b e           the block is written as f32; then at most b bytes are read and e events drained
//     Z src dst       a fresh resampler
//     P room          the block is processed as f64 into an output of so many places
//     M src dst n     max_output_len of n
//     T rate role     a fresh sender
//     A x             its amplitude is set to the f32 with the pattern x
//     K               the block's bytes are written to it
//     I n             n bits of idle mark are written to it
//     G n             n samples are read, and the pattern of each is printed
//     H n             n samples are read, and the sum of their patterns is printed, as floats.rt says
//     L n             samples_for_bits of n
//
// A call leaves the block empty. Any other line prints `?` with its number, and nothing is done.
#![tactic(auto)]

mod block;
mod decoder;
mod fields;
mod floats;
mod lines;
mod print;
mod receiver;
mod resampler;
mod sender;

fn main(rt: HostRuntime) {
    lines::run_all(&rt);
}
