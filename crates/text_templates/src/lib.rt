// Forms: texts in which each `#` stands for a number, written with the numbers in decimal into a lent buffer.
#![tactic(auto)]

ghost use Rattle.std.specs.Prelude.{◌≡◌};
ghost use Rattle.buffer.specs.Puts.{put};
ghost use Rattle.text_templates.specs.Digits.{decimal_digits};
ghost use Rattle.text_templates.specs.Forms.{filled};

use buffer::Buffer;

// Puts a number in decimal.
#[tactic(auto, using(crate::proofs::Digits::printed))]
fn put_number(to: &mut Buffer, x: usize)
    ensures { to.new ≡ put to.old (decimal_digits x) }
{
    to.put_bytes(itoa::Buffer::new().format(x).as_bytes());
}

// Puts a form with these numbers in it.
#[tactic(auto, using(crate::proofs::Forms::each))]
pub fn put(to: &mut Buffer, form: &[u8], numbers: &[usize])
    ensures { to.new ≡ put to.old (filled form.now numbers.now) }
{
    let mut numbers = numbers.iter();
    for sign in form {
        if *sign == b'#' {
            put_number(to, numbers.next().copied().unwrap_or(0));
        } else {
            to.put_byte(*sign);
        }
    }
}
