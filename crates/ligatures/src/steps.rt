// One step of the ligature program.
ghost use Rattle.std.specs.Prelude.{◌≡◌};
ghost use Rattle.items.specs.Items.{Printed};
ghost use Rattle.ligatures.specs.Ligatures.{ligature_name, kern_item, ligature_item, step_item, skipped, tail_item};

use items::Word;
use lent::Pen;
use tfm::Font;

// A kern with the character y, by entry r of the kerns. (That an index is in its table is asked here and in listing, since what is printed where
// it is not differs by table.)
fn put_kern(pen: &mut Pen, level: usize, letters: bool, kerns: &[u8], y: u8, r: u32)
    ensures { Printed pen.old level (kern_item letters kerns.now y r) pen.new }
{
    let char = Word::Code(letters, y);
    if (r as usize) < kerns.len() / 4 {
        let word = tfm::word_of(kerns, r);
        items::put_leaf(pen, level, b"KRN", &[char, Word::Real(word)]);
    } else {
        items::put_leaf(pen, level, b"KRN", &[char, Word::Raw(b"R 0.0")]);
    }
}

// By the byte of the step, which any font may have: a number with no name is LIG.
fn ligature_name(op: u8) -> &'static [u8]
    ensures { result.now ≡ ligature_name op }
{
    match op {
        1 => b"LIG/",
        2 => b"/LIG",
        3 => b"/LIG/",
        5 => b"LIG/>",
        6 => b"/LIG>",
        7 => b"/LIG/>",
        11 => b"/LIG/>>",
        _ => b"LIG",
    }
}

// A ligature of code op, with the character y, that inserts z.
fn put_ligature(pen: &mut Pen, level: usize, letters: bool, op: u8, y: u8, z: u8)
    ensures { Printed pen.old level (ligature_item letters op y z) pen.new }
{
    let words = [Word::Code(letters, y), Word::Code(letters, z)];
    items::put_leaf(pen, level, ligature_name(op), &words);
}

pub fn put_step(pen: &mut Pen, level: usize, letters: bool, font: &Font, i: u32)
    ensures { Printed pen.old level (step_item letters font.now.steps.now font.now.kerns.now i) pen.new }
{
    let skip = tfm::byte_of(font.steps, i, 0);
    let y = tfm::byte_of(font.steps, i, 1);
    let op = tfm::byte_of(font.steps, i, 2);
    let z = tfm::byte_of(font.steps, i, 3);
    if 128 < skip {
        return;
    }
    if 128 <= op {
        let r = program::address(font.steps, i).saturating_sub(32768);
        put_kern(pen, level, letters, font.kerns, y, r);
    } else {
        put_ligature(pen, level, letters, op, y, z);
    }
}

// The accessible steps among the n after step i.
fn skipped(marks: &[u8], i: u32, n: u8) -> u32
    ensures { result ≡ skipped marks.now i n }
{
    (0..n)
        .filter(|&j| lent::at(marks, i as usize + 1 + (j as usize), 0) == program::ACCESSIBLE)
        .count() as u32
}

// SKIP, STOP or nothing, after step i.
pub fn put_tail(pen: &mut Pen, marks: &[u8], i: u32, skip: u8)
    ensures { Printed pen.old 1 (tail_item marks.now i skip) pen.new }
{
    if skip == 0 {
        return;
    }
    if 128 <= skip {
        items::put_leaf(pen, 1, b"STOP", &[]);
    } else {
        items::put_leaf(pen, 1, b"SKIP", &[Word::Dec(skipped(marks, i, skip))]);
    }
}
