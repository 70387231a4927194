// Runs vectors over printing::print_sheet. Standard input holds inputs of sheetprint, each behind its length in two bytes,
// little-endian. Each is printed three times: into a buffer of 4,096 bytes, into one that its text just fits, and into one that
// is a byte short. Each time come the text, if it fits, and a line with the length that is answered and how many bytes of the
// buffer, which is filled with 170 before, are still 170. Where the last input is cut, zeros stand for the rest of it, as far as
// the 65,536 bytes that are read reach.
#![tactic(auto)]

ghost use Rattle.std.specs.Prelude.{◌≤◌};

// The text of an input in a buffer, and what is said of it; the length that is answered.
fn print_into(input: &[u8], space: &mut [u8]) -> usize
    ensures { result ≤ 4096 }
{
    let size = printing::print_sheet(input, space);
    if size <= space.len() {
        io::write_all(1, &space[..size]);
    }
    let untouched = space.iter().filter(|byte| **byte == 170).count();
    console::println(format_args!("bytes {size}, untouched {untouched}"));
    size
}

// The same in the first bytes of a buffer that is filled with 170, a byte that no text has.
fn print_part(input: &[u8], size: usize) -> usize
    requires { size ≤ 4096 }
    ensures { result ≤ 4096 }
{
    let mut space = [170u8; 4096];
    print_into(input, &mut space[..size])
}

// An input, three times.
fn print_input(input: &[u8]) {
    let size = print_part(input, 4096);
    print_part(input, size);
    if 0 < size {
        print_part(input, size - 1);
    }
}

// Runs the inputs of standard input, one after another, as long as one begins within what was read. Each takes a byte of that at least.
fn main() {
    let mut space = io::large_buffer();
    let got = io::read_full(0, &mut space);
    let mut rest = &space[..];
    for _ in 0..got {
        let at = space.len().saturating_sub(rest.len());
        match console::next_file(rest) {
            Some((input, behind)) if at < got => {
                print_input(input);
                rest = behind;
            }
            _ => return,
        }
    }
}
