// A lent buffer that is filled from an offset on, by the code that writes files and the code that writes texts. What the buffer has no
// room for is passed over.
#![tactic(auto)]

ghost use Rattle.std.specs.Prelude.{◌≡◌, ◌*◌, [], ◌∷◌, length};
ghost use Rattle.lists.specs.Words.{bytes};
ghost use Rattle.buffer.specs.Puts.{put};

// Stores numbers in two bytes each, little-endian, in a part that has just the room for them.
#[tactic(auto, using(crate::proofs::Puts::stores))]
fn store_words(to: &mut [u8], numbers: &[u16])
    requires { length to.old ≡ 2 * length numbers.now }
    ensures { to.new ≡ bytes numbers.now }
{
    for i in 0..numbers.len() {
        let [low, high] = numbers[i].to_le_bytes();
        to[2 * i] = low;
        to[2 * i + 1] = high;
    }
}

// A lent buffer, and the offset behind what is put there.
#[derive(Drop)]
pub struct Buffer<'a> {
    pub out: &'a mut [u8],
    pub at: usize,
}

impl<'a> Buffer<'a> {
    // A byte.
    #[tactic(auto, unfolding(crate::specs::Puts::put))]
    pub fn put_byte(&mut self, x: u8)
        ensures { self.new ≡ put self.old (x ∷ []) }
    {
        if self.at < self.out.len() {
            self.out[self.at] = x;
            self.at += 1;
        }
    }

    // Bytes, one after another: as many as there is room for are copied at once.
    pub fn put_bytes(&mut self, bytes: &[u8])
        ensures { self.new ≡ put self.old bytes.now }
    {
        let at = self.at.min(self.out.len());
        let count = bytes.len().min(self.out.len() - at);
        self.out[at..at + count].copy_from_slice(&bytes[..count]);
        self.at += count;
    }

    // A number in two bytes, little-endian.
    #[tactic(auto, using(crate::proofs::Puts::puts), unfolding(lists::specs::Words::bytes))]
    pub fn put_word(&mut self, x: u16)
        ensures { self.new ≡ put self.old (bytes (x ∷ [])) }
    {
        let [low, high] = x.to_le_bytes();
        self.put_byte(low);
        self.put_byte(high);
    }

    // Numbers, one after another, in two bytes each: at once where there is room for all of them.
    #[tactic(auto, using(crate::proofs::Puts::puts))]
    pub fn put_words(&mut self, numbers: &[u16])
        ensures { self.new ≡ put self.old (bytes numbers.now) }
    {
        let size = 2 * numbers.len();
        if self.at <= self.out.len() && size <= self.out.len() - self.at {
            store_words(&mut self.out[self.at..self.at + size], numbers);
            self.at += size;
        } else {
            for x in numbers {
                self.put_word(*x);
            }
        }
    }
}
