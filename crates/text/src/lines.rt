// Words, numbers and lines written one after the other.
ghost use Rattle.std.specs.Prelude.{◌≡◌, ◌+◌, ◌≤◌, length};
ghost use Rattle.text.specs.Lines.{decimal, line};
ghost use Rattle.text.specs.Inner.Pieces.{Wrote, line_most};

// The output, and the length of the text at its start.
#[derive(Drop)]
pub struct Text<'a> {
    pub out: &'a mut [u8],
    pub length: usize,
}

impl<'a> Text<'a> {
    // Bytes as they are.
    pub fn push(&mut self, bytes: &[u8])
        requires { self.old.length + length bytes.now ≤ length self.old.out.now }
        ensures same { self.new.out.ghost_name ≡ self.old.out.ghost_name }
        ensures wrote { Wrote self.old.out.now self.old.length bytes.now self.new.length self.new.out.now }
    {
        layout::write_at(bytes, self.out, self.length);
        self.length += bytes.len();
    }

    // A number in decimal: the digits before the last, and then the last.
    // By hand, since no clause of write! rules its error out.
    pub fn push_decimal(&mut self, n: u64)
        requires { self.old.length + length (decimal n) ≤ length self.old.out.now }
        ensures same { self.new.out.ghost_name ≡ self.old.out.ghost_name }
        ensures wrote { Wrote self.old.out.now self.old.length (decimal n) self.new.length self.new.out.now }
    {
        let tens = n / 10;
        if tens > 0 {
            self.push_decimal(tens);
        }
        // The cast narrows, and is proved to lose nothing.
        self.push(&[b'0' + (n % 10) as u8]);
    }

    // A line: name, space, number, line end.
    #[tactic(auto, using(crate::proofs::Pieces::most_digits))]
    pub fn push_line(&mut self, name: &[u8], n: u64)
        requires { self.old.length + line_most name.now ≤ length self.old.out.now }
        ensures same { self.new.out.ghost_name ≡ self.old.out.ghost_name }
        ensures wrote { Wrote self.old.out.now self.old.length (line name.now n) self.new.length self.new.out.now }
        ensures most { self.new.length ≤ self.old.length + line_most name.now }
    {
        self.push(name);
        self.push(b" ");
        self.push_decimal(n);
        self.push(b"\n");
    }
}
