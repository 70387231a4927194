// The text of the program sheetprint: what open, scan, sweep and chart give for a plan file, as bytes in a lent buffer.
#![tactic(auto)]

ghost use Rattle.std.specs.Prelude.{◌≡◌, ◌++◌, ◌+◌, ◌*◌, ◌≤◌, length, take};
ghost use Rattle.refusal.specs.Refusals.{number_of, place_of};
ghost use Rattle.sheet.specs.Sheets.{reads};
ghost use Rattle.buffer.specs.Puts.{put};
ghost use Rattle.printing.specs.Text.{size_line, point_lines, refusal_line, triangle_line, chart_text, sweep_text, scan_text, file_text, text, written};

use buffer::Buffer;
use chart_points::Points;
use refusal::Refusal;
use sheet::Sheet;

// The line of a refusal.
#[tactic(auto, using(crate::proofs::Prints::lines), unfolding(crate::specs::Text::refusal_line, text_templates::specs::Forms::filled_word, text_templates::specs::Digits::letters))]
fn put_refusal(to: &mut Buffer, refusal: Refusal)
    ensures value { to.new ≡ put to.old (refusal_line (number_of refusal) (place_of refusal)) }
    ensures upper_bound { length (refusal_line (number_of refusal) (place_of refusal)) ≤ 72 }
{
    let number = usize::from(refusal.number());
    text_templates::put(to, b"refused # at #\n", &[number, refusal.place()]);
}

// A line for each of the first n contexts: its number, x and y.
#[tactic(auto, using(crate::proofs::Prints::lines), unfolding(crate::specs::Text::point_line, text_templates::specs::Forms::filled_word, text_templates::specs::Digits::letters))]
fn put_points(to: &mut Buffer, points: &Points, n: u16)
    ensures value { to.new ≡ put to.old (point_lines points.now.xs.now points.now.ys.now n) }
    ensures upper_bound { length (point_lines points.now.xs.now points.now.ys.now n) ≤ 18 * n }
{
    for u in 0..usize::from(n) {
        let x = arrays::number_at(points.xs, u);
        let y = arrays::number_at(points.ys, u);
        text_templates::put(to, b"# # #\n", &[u, x, y]);
    }
}

// The lines of a sheet's chart: its size, then its points.
#[tactic(auto, using(crate::proofs::Prints::lines), unfolding(crate::specs::Text::size_line, text_templates::specs::Forms::filled_word, text_templates::specs::Digits::letters))]
fn put_chart(to: &mut Buffer, sheet: &Sheet)
    ensures value { to.new ≡ put to.old (size_line sheet.now.w sheet.now.h ++ point_lines sheet.now.xs sheet.now.ys sheet.now.n) }
    ensures upper_bound { length (size_line sheet.now.w sheet.now.h ++ point_lines sheet.now.xs sheet.now.ys sheet.now.n) ≤ 66 + 18 * sheet.now.n }
{
    let size = [usize::from(sheet.w), usize::from(sheet.h)];
    text_templates::put(to, b"size # #\n", &size);
    put_points(to, &sheet::points_of(sheet), sheet.n);
}

// From chart on.
#[tactic(auto, using(crate::proofs::Texts::drawn))]
fn put_drawn(to: &mut Buffer, sheet: &Sheet)
    ensures value { to.new ≡ put to.old (chart_text (reads sheet.now)) }
    ensures upper_bound { length (chart_text (reads sheet.now)) ≤ 3666 }
{
    match sheet_updates::chart(*sheet) {
        Err(refusal) => put_refusal(to, refusal),
        Ok(drawn) => put_chart(to, &drawn),
    }
}

// From sweep on, which prints nothing of its own.
#[tactic(auto, using(crate::proofs::Texts::swept))]
fn put_swept(to: &mut Buffer, sheet: &Sheet)
    ensures value { to.new ≡ put to.old (sweep_text (reads sheet.now)) }
    ensures upper_bound { length (sweep_text (reads sheet.now)) ≤ 3666 }
{
    match sheet_updates::sweep(*sheet) {
        Err(refusal) => put_refusal(to, refusal),
        Ok(swept) => put_drawn(to, &swept),
    }
}

// The line of what a scan finds: three contexts, or none.
#[tactic(auto, using(crate::proofs::Prints::lines), unfolding(text_templates::specs::Forms::filled_word, text_templates::specs::Digits::letters))]
fn put_triangle(to: &mut Buffer, found: Option<(usize, usize, usize)>)
    ensures value { to.new ≡ put to.old (triangle_line found) }
    ensures upper_bound { length (triangle_line found) ≤ 72 }
{
    match found {
        None => to.put_bytes(b"triangle none\n"),
        Some((a, b, c)) => text_templates::put(to, b"triangle # # #\n", &[a, b, c]),
    }
}

// From scan on.
#[tactic(auto, using(crate::proofs::Texts::scanned))]
fn put_scanned(to: &mut Buffer, sheet: &Sheet)
    ensures value { to.new ≡ put to.old (scan_text (reads sheet.now)) }
    ensures upper_bound { length (scan_text (reads sheet.now)) ≤ 3738 }
{
    match sheet_queries::scan(sheet) {
        Err(refusal) => put_refusal(to, refusal),
        Ok(found) => {
            put_triangle(to, found);
            put_swept(to, sheet);
        }
    }
}

// Of a plan file: its plan, then from scan on.
#[tactic(auto, using(crate::proofs::Texts::filed), unfolding(text_templates::specs::Forms::filled_word, text_templates::specs::Digits::letters))]
fn put_file(to: &mut Buffer, file: &[u8])
    ensures value { to.new ≡ put to.old (file_text file.now) }
    ensures upper_bound { length (file_text file.now) ≤ 4096 }
{
    match sheet_open::open_file(file) {
        Err(refusal) => put_refusal(to, refusal),
        Ok(sheet) => {
            text_templates::put(to, b"plan #\n", &[usize::from(sheet.n)]);
            put_scanned(to, &sheet);
        }
    }
}

// The same at the front of a buffer that has room for it; how long it is.
#[tactic(auto, using(crate::proofs::Prints::fronts))]
fn print_file(out: &mut [u8], file: &[u8]) -> usize
    requires { 4096 ≤ length out.old }
    ensures length { result ≡ length (file_text file.now) }
    ensures upper_bound { result ≤ 4096 }
    ensures front { take result out.new ≡ file_text file.now }
    ensures room { length out.new ≡ length out.old }
{
    let mut to = Buffer { out, at: 0 };
    put_file(&mut to, file);
    to.at
}

// The part of an input that is taken as the plan file: its first 8,192 bytes, or all if fewer.
#[tactic(auto, using(crate::proofs::Prints::taken))]
fn plan_file(input: &[u8]) -> &[u8]
    ensures { result.now ≡ take 8192 input.now }
{
    &input[..input.len().min(8192)]
}

// A whole text at the front of a buffer, whose later bytes stay; a buffer that is too short stays as it is.
#[tactic(auto, unfolding(crate::specs::Text::written))]
fn copy_text(out: &mut [u8], whole: &[u8])
    ensures { out.new ≡ written whole.now out.old }
{
    if whole.len() <= out.len() {
        out[..whole.len()].copy_from_slice(whole);
    }
}

// The text for an input, at the front of a buffer whose later bytes stay, and how many bytes the text has, never more than
// 4,096. A buffer that is too short for it stays as it is.
#[tactic(auto, unfolding(crate::specs::Text::text))]
pub fn print_sheet(input: &[u8], out: &mut [u8]) -> usize
    ensures value { result ≡ length (text input.now) }
    ensures upper_bound { result ≤ 4096 }
    ensures out_after { out.new ≡ written (text input.now) out.old }
{
    let mut space = [0u8; 4096];
    let size = print_file(&mut space, plan_file(input));
    copy_text(out, &space[..size]);
    size
}
