// The decimal of a stored word: the text that TFtoPL prints after "R " for a fix_word.
#![tactic(auto)]

ghost use Rattle.std.specs.Prelude.{◌≡◌, cond, [], ◌∷◌, ◌+◌, ◌*◌, ◌<◌, ◌≤◌};
ghost use Rattle.lent.specs.Write.{lit};
ghost use Rattle.lent.specs.Pens.{Written};
ghost use Rattle.decimal.specs.Text as text;
ghost use Rattle.decimal.specs.Room.{filled};

mod room;

use lent::Pen;
pub use room::Decimal;

// A word counts parts, of which this many make one: '4000000 in 003.
const ONE: u32 = 1048576;

// 003 §40: above '3777 the whole part is that of a negative number.
fn negative(word: u32) -> bool
    ensures { result ≡ text.negative word }
{
    word / ONE > 2047
}

// 003 §40 and §43: the whole part of the word's size.
fn whole(word: u32) -> u32
    ensures { result ≡ text.whole word }
{
    let a = word / ONE;
    if negative(word) {
        if word % ONE > 0 {
            4096 - a - 1
        } else {
            4096 - a
        }
    } else {
        a
    }
}

// 003 §40 and §43: the rest of the word's size, in parts.
fn rest(word: u32) -> u32
    ensures { result ≡ text.rest word }
{
    let f = word % ONE;
    if negative(word) {
        if f > 0 { ONE - f } else { 0 }
    } else {
        f
    }
}

// 003 §42: the correction that rounds the last digit, where `delta` has grown past one.
// The bounds keep the sum from wrapping and the difference from falling below zero.
fn nudge(f: u32, delta: u32) -> u32
    requires { (f < 10485760) × (delta ≤ f + 10) }
    ensures { result ≡ text.nudged f delta }
{
    if delta > ONE {
        f + 524288 - delta / 2
    } else {
        f
    }
}

// 003 §43: "-" for a negative word, and nothing for any other.
fn put_sign(pen: &mut Pen, word: u32)
    ensures { Written pen.old (lit (cond (text.negative word) (45 ∷ []) [])) pen.new }
{
    if negative(word) {
        pen.put(b'-');
    }
}

// 003 §42: the rest, at least one digit. Seven turns are enough: `delta` is then past every `f`.
fn put_places(pen: &mut Pen, rest: u32)
    requires { rest < 1048576 }
    ensures { Written pen.old (lit (text.places 7 (10 * rest + 5) 10)) pen.new }
{
    let mut f: u32 = 10 * rest + 5;
    let mut delta: u32 = 10;
    for turn in 0..7u32 {
        let g = nudge(f, delta);
        pen.put(b'0' + (g / ONE % 10) as u8);
        f = 10 * (g % ONE);
        delta = delta * 10;
        if f <= delta {
            return;
        }
    }
}

// The decimal of a word: the text that TFtoPL prints after "R ".
pub fn put_decimal(pen: &mut Pen, word: u32)
    ensures { Written pen.old (lit (text.text_of word)) pen.new }
{
    put_sign(pen, word);
    ink::put_at_most(pen, whole(word), 4);
    pen.put(b'.');
    put_places(pen, rest(word));
}

// The same text by value, then zeros.
pub fn decimal(word: u32) -> Decimal
    ensures { result ≡ filled (text.text_of word) }
{
    let mut bytes = [0; 13];
    let mut pen = Pen::new(&mut bytes);
    put_decimal(&mut pen, word);
    let len = pen.end();
    Decimal { bytes, len }
}
