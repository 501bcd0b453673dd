// A page: a lent buffer with the place behind what is laid so far. What would go past the buffer's end is left out, and the place is counted
// on, at most to the greatest usize: so a text is counted by laying it on one byte.
ghost use Rattle.std.specs.Prelude.{◌≡◌, [], ◌∷◌, ◌≤◌};
ghost use Rattle.numerals.specs.Digits.{digits, decimal_of, column, pair};

// The page lends its buffer from whoever opened it.
#[derive(Drop)]
pub struct Page<'a> {
    pub out: &'a mut [u8],
    pub at: usize,
    ghost counted: { at ≤ 18446744073709551615 },
}

impl<'a> Page<'a> {
    ghost use Rattle.numerals.specs.Pages.{Lays};

    // A page with nothing laid.
    pub fn new(out: &'a mut [u8]) -> Page<'a>
        ensures same { result.out.ghost_name ≡ out.entry.ghost_name }
        ensures clean { (result.out.now ≡ out.old) × (result.at ≡ 0) }
    {
        Page { out, at: 0 }
    }

    pub fn byte(&mut self, b: u8)
        ensures { Lays self.old (b ∷ []) self.new }
    {
        self.at = crate::put_byte(self.out, self.at, b);
    }

    // One step for each byte that the buffer has room for.
    pub fn bytes(&mut self, src: &[u8])
        ensures { Lays self.old src.now self.new }
    {
        self.at = crate::put_bytes(self.out, self.at, src);
    }

    // A number in n bytes, the highest first.
    #[tactic(auto, using(crate::proofs::Pages::big_length))]
    pub fn big(&mut self, n: usize, value: u64)
        ensures { Lays self.old (digits 256 0 n value) self.new }
    {
        self.at = crate::put_big(self.out, self.at, n, value);
    }

    // A number in decimal: at most 20 digits, a division for each to count them and one to lay them.
    pub fn decimal(&mut self, value: u64)
        ensures { Lays self.old (decimal_of value) self.new }
    {
        self.at = crate::put_decimal(self.out, self.at, value);
    }

    // A number in decimal, and a byte after it.
    pub fn column(&mut self, value: u64, b: u8)
        ensures { Lays self.old (column value b) self.new }
    {
        self.at = crate::put_column(self.out, self.at, value, b);
    }

    // Two numbers with a space between them, and a byte after them.
    pub fn pair(&mut self, a: u64, b: u64, last: u8)
        ensures { Lays self.old (pair a b last) self.new }
    {
        self.at = crate::put_pair(self.out, self.at, a, b, last);
    }
}
