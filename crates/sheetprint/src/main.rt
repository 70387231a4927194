// The program sheetprint: takes the first 8,192 bytes of standard input, all if fewer, as a plan file, and prints what open,
// scan, sweep and chart give for it. The text is made by printing::print_sheet, whose contract says what it is.
#![tactic(auto)]

// Reads, prints.
fn main() {
    let mut file = [0u8; 8192];
    let size = io::read_full(0, &mut file);
    let mut text = io::buffer();
    let count = printing::print_sheet(&file[..size], &mut text);
    io::write_all(1, &text[..count]);
}
