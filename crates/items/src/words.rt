// What may stand after a name.
ghost use Rattle.lent.specs.Pens.{Written};
ghost use Rattle.items.specs.Items.{word_text, raw, dec, real};
ghost use Rattle.items.specs.Words.{said_as};

use lent::Pen;

// Bytes as they are, a character's code and whether letters are asked for, a number in octal, in decimal, and a stored word by its decimal.
#[derive(Clone, Copy)]
pub enum Word<'a> {
    Raw(&'a [u8]),
    Code(bool, u8),
    Oct(u32),
    Dec(u32),
    Real(u32),
}

fn put_raw(pen: &mut Pen, s: &[u8])
    ensures { Written pen.old (word_text (raw s.now)) pen.new }
{
    pen.put(b' ');
    pen.put_bytes(s);
}

fn put_dec(pen: &mut Pen, n: u32)
    ensures { Written pen.old (word_text (dec n)) pen.new }
{
    pen.put_bytes(b" D ");
    ink::put_number(pen, n);
}

fn put_real(pen: &mut Pen, word: u32)
    ensures { Written pen.old (word_text (real word)) pen.new }
{
    pen.put_bytes(b" R ");
    decimal::put_decimal(pen, word);
}

impl<'a> Word<'a> {
    // The word with the blank before it.
    pub fn put(&self, pen: &mut Pen)
        ensures { Written pen.old (word_text (said_as self.now)) pen.new }
    {
        match *self {
            Word::Raw(s) => put_raw(pen, s),
            Word::Code(letters, c) => ink::put_code(pen, letters, c),
            Word::Oct(n) => ink::put_octal(pen, n),
            Word::Dec(n) => put_dec(pen, n),
            Word::Real(word) => put_real(pen, word),
        }
    }
}
