// A lent buffer that is written part by part, each behind the one before.
#![tactic(auto)]

ghost use Rattle.std.specs.Prelude.{◌≡◌, [], ◌∷◌};
ghost use Rattle.writer.specs.Writing.{Room, Writes};

// The next byte goes to place `at`. That there is room (`Room`) is a clause and no fact of the type: each function asks it of the words that it writes.
#[derive(Drop)]
pub struct Writer<'a> {
    bytes: &'a mut [u8],
    at: usize,
}

impl<'a> Writer<'a> {
    // From the buffer's first byte on.
    pub fn new(bytes: &'a mut [u8]) -> Writer<'a>
        ensures same_buffer { result.bytes.ghost_name ≡ bytes.entry.ghost_name }
        ensures begins { (result.bytes.now ≡ bytes.old) × (result.at ≡ 0) }
    {
        Writer { bytes, at: 0 }
    }

    pub fn byte(&mut self, byte: u8)
        requires { Room (byte ∷ []) self.old }
        ensures { Writes (byte ∷ []) self.old self.new }
    {
        self.bytes[self.at] = byte;
        self.at += 1;
    }

    pub fn word(&mut self, word: &[u8])
        requires { Room word.now self.old }
        ensures { Writes word.now self.old self.new }
    {
        let end = self.at + word.len();
        self.bytes[self.at..end].copy_from_slice(word);
        self.at = end;
    }

    // Ends the writing: the place behind what was written.
    pub fn end(self) -> usize
        ensures { (self.exit.0.now ≡ self.entry.bytes.now) × (result ≡ self.entry.at) }
    {
        let Writer { bytes: _, at } = self;
        at
    }
}
