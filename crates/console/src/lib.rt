// Standard input and output of the programs: items and files read, texts written. A contract says what a function gives and leaves; what is read and written is outside the logic, as in the kit's io.
#![tactic(auto)]

ghost use Rattle.std.specs.Prelude.{◌≡◌, ◌+◌, ◌-◌, ◌≤◌, ◌<◌, ◌%◌, ◌^◌, [], drop, length, IfSome, IfNone};
ghost use Rattle.std.specs.Fmt.{with_newline};
ghost use Rattle.arrays.specs.ArrayParts.{part_at};
ghost use Rattle.console.specs.Lines.{behind, shown};
ghost use Rattle.console.specs.Reading.{size_at};
ghost use Rattle.console.specs.Writing.{Counts};

use std::fmt;
use std::fmt::Write;

// How many items a run takes at most.
const MOST: usize = 100000;

// Reads so many bytes to the start of a space: something where the space has room for them and they were there. What stands behind them stays, and all stays where the space is too short.
fn read_bytes(space: &mut [u8], size: usize) -> Option<()>
    ensures fits { IfSome result (λ _. size ≤ length space.old) }
    ensures rest { drop size space.new ≡ drop size space.old }
    ensures short { length space.old < size → space.new ≡ space.old }
    ensures room { length space.new ≡ length space.old }
{
    if space.len() < size {
        return None;
    }
    (io::read_full(0, &mut space[..size]) == size).then_some(())
}

// An item of the input: its kind, and the length of its argument.
#[derive(Clone, Copy)]
pub struct Item {
    pub kind: u8,
    pub size: usize,
}

// The length of an item's argument by its three bytes.
fn size_of(low: u8, middle: u8, high: u8) -> usize
    ensures { result < 2 ^ 24 }
{
    usize::from_le_bytes([low, middle, high, 0, 0, 0, 0, 0])
}

// Reads an item: its kind (1 byte), the length of its argument (3 bytes, little-endian), and the argument, to the start of a space.
// None where there is no item, or not all of it, or the space is too short.
// What stands in the space behind the argument stays, and where there is none, what stands behind the longest argument that there could be.
#[tactic(auto, using(crate::proofs::Reading::none_read))]
pub fn read_item(space: &mut [u8]) -> Option<Item>
    ensures size { IfSome result (λ item. item.size ≤ length space.old) }
    ensures short { IfSome result (λ item. item.size < 2 ^ 24) }
    ensures rest { IfSome result (λ item. drop item.size space.new ≡ drop item.size space.old) }
    ensures none { IfNone result (drop (2 ^ 24 - 1) space.new ≡ drop (2 ^ 24 - 1) space.old) }
    ensures room { length space.new ≡ length space.old }
{
    let mut head = [0u8; 4];
    read_bytes(&mut head, 4)?;
    let [kind, low, middle, high] = head;
    let size = size_of(low, middle, high);
    read_bytes(space, size)?;
    Some(Item { kind, size })
}

// Runs the items of standard input, one after another, each with its kind and its argument, which is read into a space; how many there were.
// The run ends at an item that is cut or too long for the space, at one of a kind that is not known, or after 100,000 items.
pub fn run_items<F: FnMut(u8, &[u8]) -> bool>(space: &mut [u8], mut run: F) -> usize
    requires { F.IsAlwaysCallable run }
    ensures most { result ≤ 100000 }
    ensures room { length space.new ≡ length space.old }
{
    for done in 0..MOST {
        match read_item(space) {
            None => return done,
            Some(item) => {
                if !run(item.kind, &space[..item.size]) {
                    return done;
                }
            }
        }
    }
    MOST
}

// The first file of an input that holds files one after another, each behind its length in two bytes, little-endian, and what stands behind that file; None where the input is empty.
// A file that is cut is empty, and nothing stands behind it.
pub fn next_file(input: &[u8]) -> Option<(&[u8], &[u8])>
    ensures file { IfSome result (λ next. next.0.now ≡ part_at input.now 2 (size_at input.now)) }
    ensures rest { IfSome result (λ next. next.1.now ≡ drop (2 + size_at input.now) input.now) }
    ensures shorter { IfSome result (λ next. length next.1.now < length input.now) }
    ensures none { IfNone result (input.now ≡ []) }
{
    if input.is_empty() {
        return None;
    }
    let size = usize::from(arrays::word_at(input, 0));
    let end = input.len().min(2 + size);
    Some((arrays::part(input, 2, size), &input[end..]))
}

// Reads all of standard input into a space, as far as it has room, and runs the files that it holds, one after another, each with its number, from 1 on; how many there were, of which each has a byte at least.
pub fn run_files<F: FnMut(usize, &[u8])>(space: &mut [u8], mut run: F) -> usize
    requires { F.IsAlwaysCallable run }
    ensures most { result ≤ length space.old }
    ensures room { length space.new ≡ length space.old }
{
    let got = io::read_full(0, space);
    let mut rest = arrays::part(space, 0, got);
    for done in 0..got {
        match next_file(rest) {
            None => return done,
            Some((file, behind)) => {
                run(done + 1, file);
                rest = behind;
            }
        }
    }
    got
}

// Standard output, and how many bytes went to it.
#[derive(Clone, Copy)]
struct Output {
    count: usize,
}

impl fmt::Write for Output {
    ghost write_str_gives = { λ s bytes t. t.count ≡ (s.count + length bytes) % 2 ^ 64 };

    fn write_str(&mut self, text: &str) -> fmt::Result {
        io::write_all(1, text.as_bytes());
        self.count = self.count.wrapping_add(text.len());
        Ok(())
    }
}

// Writes a text to standard output; how many bytes it has. None where the text itself fails: the contract leaves open which do, and says nothing of a text whose type doesn't say what it writes.
#[tactic(auto, using(crate::proofs::Counting::counted))]
pub fn print<D: fmt::Display + Drop>(text: D) -> Option<usize>
    ensures { Counts (D.output text) result }
{
    let mut output = Output { count: 0 };
    output.write(text).ok()?;
    Some(output.count)
}

// The same of a line: the text, and its end, which counts as a byte.
pub fn println<D: fmt::Display + Drop>(text: D) -> Option<usize>
    ensures { Counts (with_newline (D.output text)) result }
{
    print(format_args!("{text}\n"))
}

// Writes a text from an index on, up to its next `#`, and a number in place of that; the index behind it.
fn show_part(text: &[u8], from: usize, x: usize) -> usize
    ensures { result ≡ behind text.now from }
{
    for i in from..text.len() {
        if text[i] == b'#' {
            io::print_decimal(1, x as u64);
            return i + 1;
        }
        io::write_all(1, &text[i..i + 1]);
    }
    from.max(text.len())
}

// Writes a text with these numbers for its first five `#`; the index behind what is written. Unlike `print` it cannot fail.
pub fn show(text: &[u8], a: usize, b: usize, c: usize, d: usize, e: usize) -> usize
    ensures { result ≡ shown text.now }
{
    let after_a = show_part(text, 0, a);
    let after_b = show_part(text, after_a, b);
    let after_c = show_part(text, after_b, c);
    let after_d = show_part(text, after_c, d);
    let after_e = show_part(text, after_d, e);
    show_part(text, after_e, 0)
}
