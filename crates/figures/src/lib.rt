//! Texts and figures, printed on a page: a lent buffer with a place in it.
//!
//! Printing cannot fail: each function asks for room, and whoever prints a line has room for all of
//! it.
#![tactic(auto)]

ghost use Rattle.std.specs.Prelude.{◌≤◌, ◌≡◌, length, decimal};
ghost use Rattle.figures.specs.Figures.{hexadecimal};

/// A piece of a line.
#[derive(Clone, Copy, Debug)]
pub enum Piece<'a> {
    /// The bytes of the text, as they are.
    Text(&'a str),
    /// A number in decimal, with no zero in front.
    Decimal(u32),
    /// Words of a match word in hexadecimal, 16 digits each, with a space before each.
    Words(&'a [u64]),
}

/// A buffer whose front is printed, so far.
#[derive(Debug, Drop)]
pub struct Page<'a> {
    out: &'a mut [u8],
    at: usize,
    ghost within: { at ≤ length out.now },
}

impl<'a> Page<'a> {
    ghost use Rattle.figures.specs.Pieces.{spaced_word, spaced_words, piece_bytes, all_bytes};
    ghost use Rattle.figures.specs.Sheet.{sheet, blank_sheet, HasRoom, Prints};

    /// A page with nothing printed, over the whole buffer.
    pub fn new(out: &'a mut [u8]) -> Page<'a>
        ensures { sheet result ≡ blank_sheet out.entry.ghost_name out.old }
    {
        Page { out, at: 0 }
    }

    /// The number of bytes that are printed: the first ones of the buffer.
    pub fn len(&self) -> usize
        ensures { result ≡ length (sheet self.now).printed }
    {
        self.at
    }

    /// Prints pieces, one after the other.
    #[tactic(auto, using(crate::proofs::Printing::turns))]
    pub fn print(&mut self, pieces: &[Piece])
        requires { HasRoom self.old (all_bytes pieces.now) }
        ensures { Prints self.old self.new (all_bytes pieces.now) }
    {
        for piece in pieces {
            self.put(*piece);
        }
    }

    /// Prints one piece.
    pub fn put(&mut self, piece: Piece)
        requires { HasRoom self.old (piece_bytes piece) }
        ensures { Prints self.old self.new (piece_bytes piece.entry) }
    {
        match piece {
            Piece::Text(text) => self.put_bytes(text.as_bytes()),
            Piece::Decimal(n) => self.put_decimal(n),
            Piece::Words(words) => self.put_words(words),
        }
    }

    // A number in decimal.
    fn put_decimal(&mut self, n: u32)
        requires { HasRoom self.old (decimal n) }
        ensures { Prints self.old self.new (decimal n) }
    {
        let mut digits = itoa::Buffer::new();
        self.put_bytes(digits.format(n).as_bytes())
    }

    // Words in hexadecimal, with a space before each.
    #[tactic(auto, using(crate::proofs::Printing::turns))]
    fn put_words(&mut self, words: &[u64])
        requires { HasRoom self.old (spaced_words words.now) }
        ensures { Prints self.old self.new (spaced_words words.now) }
    {
        for word in words {
            self.put_word(*word);
        }
    }

    // A space and a word in hexadecimal.
    #[tactic(auto, using(crate::proofs::Printing::both, crate::proofs::Printing::room_after))]
    fn put_word(&mut self, word: u64)
        requires { HasRoom self.old (spaced_word word) }
        ensures { Prints self.old self.new (spaced_word word) }
    {
        self.put_bytes(b" ");
        self.put_hexadecimal(word)
    }

    /// Prints a word in hexadecimal: 16 digits, in small letters.
    #[tactic(auto, using(crate::proofs::Digits::sixteen))]
    pub fn put_hexadecimal(&mut self, word: u64)
        requires { HasRoom self.old (hexadecimal word) }
        ensures { Prints self.old self.new (hexadecimal word) }
    {
        let mut digits = [0; 16];
        io::hex(word, 16, &mut digits);
        self.put_bytes(&digits)
    }

    /// Prints bytes as they are.
    pub fn put_bytes(&mut self, bytes: &[u8])
        requires { HasRoom self.old bytes.now }
        ensures { Prints self.old self.new bytes.now }
    {
        let end = self.at + bytes.len();
        self.out[self.at..end].copy_from_slice(bytes);
        self.at = end;
    }
}
