// The C interface: the functions of touchchart under the names that C calls, with the same contracts. A slice crosses as a pointer and the number of its
// elements, two arguments. include/touchchart.h documents it for C.
#![tactic(auto)]

ghost use Rattle.std.specs.Prelude.{◌≡◌};
ghost use Rattle.file_writing.specs.WrittenFiles.{buffer_after};
ghost use Rattle.sheet.specs.Answers.{length_of};
ghost use Rattle.sheet_bytes.specs.Codes.{answer_code};
ghost use Rattle.touchchart.specs.Interface.{opens_to, sweeps_to, offers_to, turns_to, charts_to, scans_to, compares_to, rings_to};

// Opens a file: the number of its sheet's bytes, which are written to out.
#[unsafe(no_mangle)]
pub extern "C" fn touchchart_open(file: &[u8], out: &mut [u8]) -> u64
    ensures value { result ≡ answer_code (length_of (opens_to file.now out.old)) }
    ensures out_after { out.new ≡ buffer_after (opens_to file.now out.old) out.old }
{
    touchchart::touchchart_open(file, out)
}

// Sweeps a sheet (OPEN up): the number of the new sheet's bytes, which are written to out.
#[unsafe(no_mangle)]
pub extern "C" fn touchchart_sweep(sheet: &[u8], out: &mut [u8]) -> u64
    ensures value { result ≡ answer_code (length_of (sweeps_to sheet.now out.old)) }
    ensures out_after { out.new ≡ buffer_after (sweeps_to sheet.now out.old) out.old }
{
    touchchart::touchchart_sweep(sheet, out)
}

// Offers labels to a sheet (OPEN up): the number of the new sheet's bytes, which are written to out.
#[unsafe(no_mangle)]
pub extern "C" fn touchchart_offer(sheet: &[u8], labels: &[u8], out: &mut [u8]) -> u64
    ensures value { result ≡ answer_code (length_of (offers_to sheet.now labels.now out.old)) }
    ensures out_after { out.new ≡ buffer_after (offers_to sheet.now labels.now out.old) out.old }
{
    touchchart::touchchart_offer(sheet, labels, out)
}

// Turns labels of a sheet (LABELLED up): the number of the new sheet's bytes, which are written to out.
#[unsafe(no_mangle)]
pub extern "C" fn touchchart_turn(sheet: &[u8], pairs: &[u16], direction: u8, out: &mut [u8]) -> u64
    ensures value { result ≡ answer_code (length_of (turns_to sheet.now pairs.now direction out.old)) }
    ensures out_after { out.new ≡ buffer_after (turns_to sheet.now pairs.now direction out.old) out.old }
{
    touchchart::touchchart_turn(sheet, pairs, direction, out)
}

// Charts a sheet (LABELLED up): the number of the new sheet's bytes, which are written to out.
#[unsafe(no_mangle)]
pub extern "C" fn touchchart_chart(sheet: &[u8], out: &mut [u8]) -> u64
    ensures value { result ≡ answer_code (length_of (charts_to sheet.now out.old)) }
    ensures out_after { out.new ≡ buffer_after (charts_to sheet.now out.old) out.old }
{
    touchchart::touchchart_chart(sheet, out)
}

// Scans a sheet (OPEN up): 0 for none, else a × 65536 + b × 256 + c.
#[unsafe(no_mangle)]
pub extern "C" fn touchchart_scan(sheet: &[u8]) -> u64
    ensures { result ≡ answer_code (scans_to sheet.now) }
{
    touchchart::touchchart_scan(sheet)
}

// Compares two sheets (both CHARTED): 1 where n, w, h and all points are equal, else 0.
#[unsafe(no_mangle)]
pub extern "C" fn touchchart_same(a: &[u8], b: &[u8]) -> u64
    ensures { result ≡ answer_code (compares_to a.now b.now) }
{
    touchchart::touchchart_same(a, b)
}

// Finds a context's ring in a file: offset × 65536 + length of the part.
#[unsafe(no_mangle)]
pub extern "C" fn touchchart_ring(file: &[u8], context: u16) -> u64
    ensures { result ≡ answer_code (rings_to file.now context) }
{
    touchchart::touchchart_ring(file, context)
}
