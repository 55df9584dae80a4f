// The header and the parameters of a font, printed as 003 §48 to §61 do.
#![tactic(auto)]

pub mod parameters;

ghost use Rattle.std.specs.Prelude.{◌≡◌, [], ◌∷◌, ◌+◌, ◌-◌};
ghost use Rattle.lent.specs.Write.{byte, lit};
ghost use Rattle.lent.specs.Pens.{Written};
ghost use Rattle.items.specs.Items.{raw, word_text, leaf, loop, Printed};
ghost use Rattle.header.specs.Header.{kind_of, letters_in, letter_of, spelled, face_text, face_item, header_word, rest_items, family_items, string_items, design_item, remarks, check_item, flag_item, header_items};

use items::Word;
use lent::Pen;
use tfm::Font;

// 003's font_type.
#[derive(Clone, Copy, Debug, PartialEq, Eq)]
pub enum Kind {
    Vanilla,
    MathSymbols,
    MathExtension,
}

#[tactic(auto, unfolding(crate::specs::Header::kind_of))]
pub fn kind_of(font: &Font) -> Kind
    ensures { result ≡ kind_of font.now.header.now font.now.layout }
{
    if faults::header::math_symbols(font) {
        Kind::MathSymbols
    } else if faults::header::math_extension(font) {
        Kind::MathExtension
    } else {
        Kind::Vanilla
    }
}

// Letters and digits stand for themselves.
#[tactic(auto, unfolding(crate::specs::Header::letters_in))]
pub fn letters_in(kind: Kind) -> bool
    ensures { result ≡ letters_in kind }
{
    kind == Kind::Vanilla
}

fn put_letter(pen: &mut Pen, font: &Font, string: u32, i: u8)
    ensures { Written pen.old (byte (letter_of font.now.header.now string i)) pen.new }
{
    let letter = faults::header::string_byte(font, string, i as u32 + 1);
    pen.put(faults::header::upper(letter));
}

// By number, as a letter past the end of the file counts as 0.
fn put_letters(pen: &mut Pen, font: &Font, string: u32)
    ensures { Written pen.old (lit (spelled font.now.header.now string)) pen.new }
{
    for i in 0..faults::header::string_byte(font, string, 0) {
        put_letter(pen, font, string, i);
    }
}

fn put_spelled(pen: &mut Pen, font: &Font, string: u32)
    ensures { Written pen.old (word_text (raw (spelled font.now.header.now string))) pen.new }
{
    pen.put(b' ');
    put_letters(pen, font, string);
}

// A string of the header, by its number as in faults, under a name. Its letters stand nowhere as they are printed, so they are no word for a leaf.
fn put_string(pen: &mut Pen, name: &[u8], font: &Font, string: u32)
    ensures { Printed pen.old 0 (leaf name.now (raw (spelled font.now.header.now string) ∷ [])) pen.new }
{
    items::put_name(pen, name);
    put_spelled(pen, font, string);
    items::put_close(pen, 0);
}

#[tactic(auto, unfolding(crate::specs::Header::face_text))]
fn face_text(face: u8) -> [u8; 5]
    ensures { result ≡ face_text face }
{
    [
        b'F',
        b' ',
        lent::at(b"MBL", (face / 2 % 3) as usize, 0),
        lent::at(b"RI", (face % 2) as usize, 0),
        lent::at(b"RCE", (face / 2 / 3) as usize, 0),
    ]
}

fn put_face(pen: &mut Pen, face: u8)
    ensures { Printed pen.old 0 (face_item face) pen.new }
{
    if face < 18 {
        items::put_leaf(pen, 0, b"FACE", &[Word::Raw(&face_text(face))]);
    } else {
        items::put_leaf(pen, 0, b"FACE", &[Word::Oct(face as u32)]);
    }
}

fn put_header_word(pen: &mut Pen, font: &Font, i: u16)
    ensures { Printed pen.old 0 (header_word font.now.header.now i) pen.new }
{
    let at = i as u32 + 18;
    let word = tfm::word_of(font.header, at);
    items::put_leaf(pen, 0, b"HEADER", &[Word::Dec(at), Word::Oct(word)]);
}

// By number, as it is printed.
fn put_header_words(pen: &mut Pen, font: &Font, n: u16)
    ensures { Printed pen.old 0 (loop n (header_word font.now.header.now)) pen.new }
{
    for i in 0..n {
        put_header_word(pen, font, i);
    }
}

// The face and the words after it.
fn put_rest(pen: &mut Pen, font: &Font)
    ensures { Printed pen.old 0 (rest_items font.now.header.now font.now.layout) pen.new }
{
    if 18 <= font.layout.lh {
        put_face(pen, tfm::byte_of(font.header, 17, 3));
        put_header_words(pen, font, font.layout.lh.saturating_sub(18));
    }
}

// The family and the rest.
fn put_families(pen: &mut Pen, font: &Font)
    ensures { Printed pen.old 0 (family_items font.now.header.now font.now.layout) pen.new }
{
    if 17 <= font.layout.lh {
        put_string(pen, b"FAMILY", font, 1);
        put_rest(pen, font);
    }
}

// What stands after the first two words, if a coding scheme does.
fn put_strings(pen: &mut Pen, font: &Font)
    ensures { Printed pen.old 0 (string_items font.now.header.now font.now.layout) pen.new }
{
    if 12 <= font.layout.lh {
        put_families(pen, font);
        put_string(pen, b"CODINGSCHEME", font, 0);
    }
}

fn put_design_size(pen: &mut Pen, font: &Font)
    ensures { Printed pen.old 0 (design_item font.now.header.now) pen.new }
{
    if faults::header::bad_design_size(font) {
        items::put_leaf(pen, 0, b"DESIGNSIZE", &[Word::Dec(10)]);
    } else {
        let word = tfm::word_of(font.header, 1);
        items::put_leaf(pen, 0, b"DESIGNSIZE", &[Word::Real(word)]);
    }
}

fn put_remarks(pen: &mut Pen)
    ensures { Printed pen.old 0 remarks pen.new }
{
    items::put_leaf(pen, 0, b"COMMENT DESIGNSIZE IS IN POINTS", &[]);
    items::put_leaf(
        pen,
        0,
        b"COMMENT OTHER SIZES ARE MULTIPLES OF DESIGNSIZE",
        &[],
    );
}

fn put_check_sum(pen: &mut Pen, font: &Font)
    ensures { Printed pen.old 0 (check_item font.now.header.now) pen.new }
{
    let word = tfm::word_of(font.header, 0);
    items::put_leaf(pen, 0, b"CHECKSUM", &[Word::Oct(word)]);
}

fn put_flag(pen: &mut Pen, font: &Font)
    ensures { Printed pen.old 0 (flag_item font.now.header.now font.now.layout) pen.new }
{
    if (17 < font.layout.lh) & (127 < tfm::byte_of(font.header, 17, 0)) {
        items::put_leaf(pen, 0, b"SEVENBITSAFEFLAG", &[Word::Raw(b"TRUE")]);
    }
}

pub fn put_header(pen: &mut Pen, font: &Font)
    ensures { Printed pen.old 0 (header_items font.now.header.now font.now.layout) pen.new }
{
    put_strings(pen, font);
    put_design_size(pen, font);
    put_remarks(pen);
    put_check_sum(pen, font);
    put_flag(pen, font);
}
