//! "The line is read front to back, each field once": a reader holds the code line and a place in it, and each read moves it behind the field.
//! It is thin over functions on slice and number. SPEC 4.2, 4.6, 10.8.
ghost use Rattle.std.specs.Prelude.{◌≡◌, ◌+◌, ◌-◌, ◌<◌, ◌≤◌, length, get_or};
ghost use Rattle.machine.specs.CodeLine.{word_at};

// The work, on slice and number: the byte at a place.
fn byte_at(s: &[u8], at: usize) -> u8
    requires { at < length s.now }
    ensures { result ≡ get_or s.now at 0 }
{
    s[at]
}

// "Two bytes, high first", from a place on.
fn word_at(s: &[u8], at: usize) -> u16
    requires { at + 1 < length s.now }
    ensures { result ≡ word_at s.now at }
{
    let high = byte_at(s, at);
    let low = byte_at(s, at + 1);
    u16::from(high) * 256 + u16::from(low)
}

// How many bytes are left from a place on.
fn left_at(s: &[u8], at: usize) -> usize
    ensures { result ≡ length s.now - at }
{
    s.len().saturating_sub(at)
}

#[derive(Clone, Copy, Debug, PartialEq, Eq)]
pub struct Reader<'a> {
    pub src: &'a [u8],
    pub at: usize,
    ghost inside: { at ≤ length src.now },
}

impl<'a> Reader<'a> {
    /// At the front of a line.
    pub fn new(src: &'a [u8]) -> Reader<'a>
        ensures src { result.src ≡ src.entry }
        ensures at { result.at ≡ 0 }
    {
        Reader { src, at: 0 }
    }

    /// How many bytes are left.
    pub fn left(&self) -> usize
        ensures { result ≡ length self.now.src.now - self.now.at }
    {
        left_at(self.src, self.at)
    }

    pub fn byte(&mut self) -> u8
        requires { self.old.at < length self.old.src.now }
        ensures value { result ≡ get_or self.old.src.now self.old.at 0 }
        ensures src { self.new.src ≡ self.old.src }
        ensures at { self.new.at ≡ self.old.at + 1 }
    {
        let byte = byte_at(self.src, self.at);
        self.at += 1;
        byte
    }

    /// "Two bytes, high first".
    pub fn word(&mut self) -> u16
        requires { self.old.at + 1 < length self.old.src.now }
        ensures value { result ≡ word_at self.old.src.now self.old.at }
        ensures src { self.new.src ≡ self.old.src }
        ensures at { self.new.at ≡ self.old.at + 2 }
    {
        let word = word_at(self.src, self.at);
        self.at += 2;
        word
    }
}
