// The text of literals, clauses, the header and a refusal, stored by a writer.
#![tactic(auto)]

ghost use Rattle.std.specs.Prelude.{◌≡◌, ◌+◌, ◌<◌, ◌^◌, [], ◌∷◌, length, set};
ghost use Rattle.literal.specs.Literals.{Small, EachSmall};
ghost use Rattle.printing.specs.Printing.{digits, literal_text, clause_text, line_text, header_text, refused_line};
ghost use Rattle.printing.specs.Stored.{Stored, Wrote};

// Stores a byte, if the output reaches its place.
fn store(out: &mut [u8], place: usize, b: u8)
    ensures { out.new ≡ set out.old place b }
{
    if place < out.len() {
        out[place] = b;
    }
}

// The decimal digits of n from `at` on, and the place behind them; one call for each digit. The calls hand the place on by value, which is faster than through the writer.
fn put_digits(out: &mut [u8], at: usize, n: u64) -> usize
    requires { at + length (digits n) < 2 ^ 63 }
    ensures { Stored (digits n) at out.old out.new result }
{
    if n < 10 {
        store(out, at, b'0' + n as u8);
        return at + 1;
    }
    let next = put_digits(out, at, n / 10);
    store(out, next, b'0' + (n % 10) as u8);
    next + 1
}

// Where a text is stored: the output, and the place behind what is stored already. Past the end of the output, and on an empty output, it only measures.
#[derive(Drop)]
pub struct Writer<'a> {
    pub out: &'a mut [u8],
    pub at: usize,
}

impl<'a> Writer<'a> {
    pub fn new(out: &'a mut [u8]) -> Writer<'a>
        ensures front { result.at ≡ 0 }
        ensures output { result.out.now ≡ out.old }
        ensures same_reference { result.out.ghost_name ≡ out.entry.ghost_name }
    {
        Writer { out, at: 0 }
    }

    fn put_byte(&mut self, b: u8)
        requires { self.old.at < 2 ^ 63 }
        ensures { Wrote (b ∷ []) self.old self.new }
    {
        let at = self.at;
        store(self.out, at, b);
        self.at = at + 1;
    }

    fn put_number(&mut self, n: u64)
        requires { self.old.at + length (digits n) < 2 ^ 63 }
        ensures { Wrote (digits n) self.old self.new }
    {
        self.at = put_digits(self.out, self.at, n);
    }

    fn put_literal(&mut self, l: i32)
        requires { Small l × (self.old.at + length (literal_text l) < 2 ^ 63) }
        ensures { Wrote (literal_text l) self.old self.new }
    {
        if l < 0 {
            self.put_byte(b'-');
        }
        self.put_number(l.unsigned_abs() as u64);
    }

    // Each literal and a space, then `0` and LF. Its literals come from tables that keep the shape rule, and what is written is far shorter than 2^63 bytes.
    pub fn put_clause(&mut self, clause: &[i32])
        requires { EachSmall clause.now × (self.old.at + length (clause_text clause.now) < 2 ^ 63) }
        ensures { Wrote (clause_text clause.now) self.old self.new }
    {
        for &l in clause {
            self.put_literal(l);
            self.put_byte(b' ');
        }
        self.put_byte(b'0');
        self.put_byte(b'\n');
    }

    fn put_text(&mut self, s: &[u8])
        requires { self.old.at + length s.now < 2 ^ 63 }
        ensures { Wrote s.now self.old self.new }
    {
        for &b in s {
            self.put_byte(b);
        }
    }

    // A word, and two numbers with a space between them: a whole line.
    fn put_line(&mut self, word: &[u8], a: u64, b: u64)
        requires { self.old.at + length (line_text word.now a b) < 2 ^ 63 }
        ensures { Wrote (line_text word.now a b) self.old self.new }
    {
        self.put_text(word);
        self.put_number(a);
        self.put_byte(b' ');
        self.put_number(b);
        self.put_byte(b'\n');
    }

    // The line `p cnf V N`. What is written is far shorter than 2^63 bytes.
    pub fn put_header(&mut self, v: u32, n: u32)
        requires { self.old.at + length (header_text v n) < 2 ^ 63 }
        ensures { Wrote (header_text v n) self.old self.new }
    {
        self.put_line(b"p cnf ", v as u64, n as u64);
    }
}

// The line `refused NUMBER PLACE`, from a place of the output on; the place behind it.
pub fn put_refusal(out: &mut [u8], at: usize, number: u64, place: u64) -> usize
    requires { at + length (refused_line number place) < 2 ^ 63 }
    ensures { Stored (refused_line number place) at out.old out.new result }
{
    let mut writer = Writer { out, at };
    writer.put_line(b"refused ", number, place);
    writer.at
}
