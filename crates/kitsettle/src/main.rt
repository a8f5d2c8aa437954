// The program: reads a sheet from standard input, and writes its rules and settled loads, or why it is refused.
// A text of more than 65,536 bytes shows by one byte more; the longest output, of 256 rows and 1,024 loads, has 122,368 bytes.
// It reads and writes by io's calls on the descriptors 0 and 1, so it rests on `read` and `write` alone.
#![tactic(auto)]

use arrayvec::ArrayVec;

fn main() {
    let mut text = [0u8; 65537];
    let mut out = ArrayVec::<u8, 122368>::new();
    let n = io::read_full(0, &mut text);
    answers::answer(&text[..n], &mut out);
    io::write_all(1, out.as_slice());
}
