// The bench: modem frames on standard input, replies in frames on standard output ("The program"); or a line for each frame, to be read.
#![tactic(auto)]

fn main(rt: HostRuntime) {
    desk::sit(rt);
}
