// A property list's parts, printed: heads with their words, leaves, and what opens and closes a group.
#![tactic(auto)]

mod words;

ghost use Rattle.lent.specs.Write.{byte, lit, ◌▹◌};
ghost use Rattle.lent.specs.Pens.{Written};
ghost use Rattle.ink.specs.Ink.{line};
ghost use Rattle.items.specs.Items.{head, close, leaf, Printed};
ghost use Rattle.items.specs.Words.{said};

use lent::Pen;
pub use words::Word;

// "(" and a name.
pub fn put_name(pen: &mut Pen, name: &[u8])
    ensures { Written pen.old (byte 40 ▹ lit name.now) pen.new }
{
    pen.put(b'(');
    pen.put_bytes(name);
}

// "(", a name and words.
fn put_head(pen: &mut Pen, name: &[u8], words: &[Word])
    ensures { Written pen.old (head name.now (said words.now)) pen.new }
{
    put_name(pen, name);
    for word in words {
        word.put(pen);
    }
}

// ")" and the end of the line.
pub fn put_close(pen: &mut Pen, level: usize)
    ensures { Written pen.old (close level) pen.new }
{
    pen.put(b')');
    ink::put_line(pen, level);
}

// A name with its words.
pub fn put_leaf(pen: &mut Pen, level: usize, name: &[u8], words: &[Word])
    ensures { Printed pen.old level (leaf name.now (said words.now)) pen.new }
{
    put_head(pen, name, words);
    put_close(pen, level);
}

// The head of a group, and the line after it.
pub fn open_group(pen: &mut Pen, inside: usize, name: &[u8], words: &[Word])
    ensures { Written pen.old (head name.now (said words.now) ▹ line inside) pen.new }
{
    put_head(pen, name, words);
    ink::put_line(pen, inside);
}
