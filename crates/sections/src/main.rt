// The program sections: a plant file on standard input, the bytes of its six sections, in the header's order, on standard output. It runs the part
// that `section` (crates/parts) returns.
#![tactic(auto)]

use header::FILE_LIMIT;
use input::read_full;
use layout::Section;
use parts::section;

// One byte more than a plant file has, so that a longer one is refused.
const INPUT: usize = FILE_LIMIT + 1;

// A write that fails is not reported: the exit status is 0 in any case.
fn main(rt: HostRuntime) {
    let mut input = [0u8; INPUT];
    let n = read_full(&mut rt.stdin(), &mut input);
    for kind in Section::ALL {
        let _ = rt
            .stdout()
            .write_all(section(&input[..n], usize::from(kind)));
    }
}
