// What lines are made of, each put at the place of an output, which then goes behind it.
#![tactic(auto)]

ghost use Rattle.std.specs.Prelude.{[], ◌∷◌, length};
ghost use Rattle.buffer.specs.Buffer.{decimal, number_room, field, field_room, Room, Grew};

// A lent buffer, and the place up to which it is written.
#[derive(Drop)]
pub struct Output<'a> {
    pub buffer: &'a mut [u8],
    pub at: usize,
}

impl<'a> Output<'a> {
    pub fn put_byte(&mut self, x: u8)
        requires { Room 1 self.old }
        ensures { Grew 1 self.old self.new (x ∷ []) }
    {
        self.buffer[self.at] = x;
        self.at += 1;
    }

    pub fn put_word(&mut self, word: &[u8])
        requires { Room (length word.now) self.old }
        ensures { Grew (length word.now) self.old self.new word.now }
    {
        let end = self.at + word.len();
        self.buffer[self.at..end].copy_from_slice(word);
        self.at = end;
    }

    // The digits before the last are put first, as the definition has them, so that none is counted or turned around; the calls go ten deep at most.
    // The library's formatting fills an array of its own, from which the digits would be copied.
    pub fn put_decimal(&mut self, v: u32)
        requires { Room number_room self.old }
        ensures { Grew number_room self.old self.new (decimal v) }
    {
        if v < 10 {
            self.put_byte(b'0' + v as u8);
            return;
        }
        self.put_decimal(v / 10);
        self.put_byte(b'0' + (v % 10) as u8);
    }

    pub fn put_field(&mut self, v: u32)
        requires { Room field_room self.old }
        ensures { Grew field_room self.old self.new (field v) }
    {
        self.put_byte(b' ');
        self.put_decimal(v);
    }
}
