// The program permits: a plant file and request bytes on standard input, the batch's answers and rights as text on standard output.
#![tactic(auto)]

use input::read_full;
use session::{INPUT, TEXT, print_read};

// A write that fails is not reported: the exit status is 0 in any case. Both arrays are made before the input is read, since the compiler clears one
// twice that is made between.
fn main(rt: HostRuntime) {
    let mut input = [0u8; INPUT];
    let mut text = [0u8; TEXT];
    let n = read_full(&mut rt.stdin(), &mut input);
    let k = print_read(&input, n, &mut text);
    let _ = rt.stdout().write_all(&text[..k]);
}
