// One bench for a class: modem frames on standard input, replies in frames on standard output; or a line for each frame, to be read
// (document 02, "One bench for a class").
#![tactic(auto)]

fn main(rt: HostRuntime) {
    desk::teach(rt);
}
