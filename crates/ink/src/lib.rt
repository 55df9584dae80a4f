// Text from a pen: line ends, numbers and character codes, as the listing prints them.
#![tactic(auto)]

ghost use Rattle.std.specs.Prelude.{◌≡◌, ◌<◌};
ghost use Rattle.lent.specs.Write.{byte, lit, ◌▹◌, each, codes};
ghost use Rattle.lent.specs.Pens.{Written};
ghost use Rattle.ink.specs.Ink.{indent, line, digits, number, octal, alphanumeric, code};

use lent::Pen;

fn put_indents(pen: &mut Pen, level: usize)
    ensures { Written pen.old (each level indent) pen.new }
{
    for _ in 0..level {
        pen.put_bytes(b"   ");
    }
}

// The end of a line, and the next begun at a level.
pub fn put_line(pen: &mut Pen, level: usize)
    ensures { Written pen.old (line level) pen.new }
{
    pen.put(b'\n');
    put_indents(pen, level);
}

// The last digits of a number, at most as many as there are places: first those of the number without its last. (Not by Display: no format of
// Display's keeps the last places and drops the others, as `digits` does.) The base is known before it runs, so that no digit costs a division.
fn put_digits<const BASE: u32>(pen: &mut Pen, n: u32, places: u32)
    requires { (1 < BASE) × (BASE < 11) }
    ensures { Written pen.old (lit (digits BASE places n)) pen.new }
{
    if places == 0 {
        return;
    }
    if n / BASE != 0 {
        put_digits::<BASE>(pen, n / BASE, places - 1);
    }
    pen.put(b'0' + (n % BASE) as u8);
}

// A number in decimal, its last digits alone if it has more than the places.
pub fn put_at_most(pen: &mut Pen, n: u32, places: u32)
    ensures { Written pen.old (lit (digits 10 places n)) pen.new }
{
    put_digits::<10>(pen, n, places);
}

// A number in decimal.
#[tactic(auto, unfolding(crate::specs::Ink::number))]
pub fn put_number(pen: &mut Pen, n: u32)
    ensures { Written pen.old (number n) pen.new }
{
    put_at_most(pen, n, 11);
}

// A word in octal.
pub fn put_octal(pen: &mut Pen, word: u32)
    ensures { Written pen.old (octal word) pen.new }
{
    pen.put_bytes(b" O ");
    put_digits::<8>(pen, word, 11);
}

// The library's method, with a clause in the words of `code`.
fn is_alphanumeric(c: u8) -> bool
    ensures { result ≡ alphanumeric c }
{
    c.is_ascii_alphanumeric()
}

fn put_letter(pen: &mut Pen, c: u8)
    ensures { Written pen.old (lit (codes " C ") ▹ byte c) pen.new }
{
    pen.put_bytes(b" C ");
    pen.put(c);
}

// A character's code, by its letter where letters are asked for and it has one.
pub fn put_code(pen: &mut Pen, letters: bool, c: u8)
    ensures { Written pen.old (code letters c) pen.new }
{
    if letters & is_alphanumeric(c) {
        put_letter(pen, c);
    } else {
        put_octal(pen, c as u32);
    }
}
