// The parameters of a font by their names.
ghost use Rattle.std.specs.Prelude.{◌≡◌, []};
ghost use Rattle.std.specs.Option.{option_copied};
ghost use Rattle.lent.specs.Write.{codes};
ghost use Rattle.items.specs.Items.{group, loop, Printed};
ghost use Rattle.header.specs.Parameters.{parameter_item, parameter_at, fontdimen, common_name, symbols_name, extension_name, name_of};

use crate::Kind;
use items::Word;
use lent::Pen;
use tfm::Font;

// The names that all fonts have. (Of the numbers from 1 to 7, that is: no other is asked for, and the definition too has 7's name for all the others.)
fn common_name(i: u32) -> &'static [u8]
    ensures { result.now ≡ common_name i }
{
    match i {
        1 => b"SLANT",
        2 => b"SPACE",
        3 => b"STRETCH",
        4 => b"SHRINK",
        5 => b"XHEIGHT",
        6 => b"QUAD",
        _ => b"EXTRASPACE",
    }
}

// Those of a math symbols font, from 8 on. (The patterns up to 12 and up to 19 are the bounds that the definitions go by: below 8 no name is asked for.)
fn symbols_name(i: u32) -> Option<&'static [u8]>
    ensures { option_copied result ≡ symbols_name i }
{
    match i {
        8 => Some(b"NUM1"),
        9 => Some(b"NUM2"),
        10 => Some(b"NUM3"),
        11 => Some(b"DENOM1"),
        ..=12 => Some(b"DENOM2"),
        13 => Some(b"SUP1"),
        14 => Some(b"SUP2"),
        15 => Some(b"SUP3"),
        16 => Some(b"SUB1"),
        17 => Some(b"SUB2"),
        18 => Some(b"SUPDROP"),
        ..=19 => Some(b"SUBDROP"),
        20 => Some(b"DELIM1"),
        21 => Some(b"DELIM2"),
        22 => Some(b"AXISHEIGHT"),
        _ => None,
    }
}

// And of a math extension font.
fn extension_name(i: u32) -> Option<&'static [u8]>
    ensures { option_copied result ≡ extension_name i }
{
    match i {
        8 => Some(b"DEFAULTRULETHICKNESS"),
        9 => Some(b"BIGOPSPACING1"),
        10 => Some(b"BIGOPSPACING2"),
        11 => Some(b"BIGOPSPACING3"),
        12 => Some(b"BIGOPSPACING4"),
        13 => Some(b"BIGOPSPACING5"),
        _ => None,
    }
}

// The name of parameter i, from 1 on, where it has one.
#[tactic(auto, unfolding(crate::specs::Parameters::name_of, crate::specs::Parameters::further_name))]
fn name_of(kind: Kind, i: u32) -> Option<&'static [u8]>
    ensures { option_copied result ≡ name_of kind i }
{
    if i <= 7 {
        return Some(common_name(i));
    }
    match kind {
        Kind::Vanilla => None,
        Kind::MathSymbols => symbols_name(i),
        Kind::MathExtension => extension_name(i),
    }
}

fn put_parameter(pen: &mut Pen, kind: Kind, i: u32, w: u32)
    ensures { Printed pen.old 1 (parameter_item kind i w) pen.new }
{
    match name_of(kind, i) {
        Some(name) => items::put_leaf(pen, 1, name, &[Word::Real(w)]),
        None => items::put_leaf(pen, 1, b"PARAMETER", &[Word::Dec(i), Word::Real(w)]),
    }
}

fn put_parameter_at(pen: &mut Pen, kind: Kind, font: &Font, i: u16)
    ensures { Printed pen.old 1 (parameter_at kind font.now.params.now i) pen.new }
{
    let w = tfm::word_of(font.params, i as u32);
    put_parameter(pen, kind, i as u32 + 1, w);
}

// By number, as it is printed.
fn put_each_parameter(pen: &mut Pen, kind: Kind, font: &Font)
    ensures { Printed pen.old 1 (loop font.now.layout.np (parameter_at kind font.now.params.now)) pen.new }
{
    for i in 0..font.layout.np {
        put_parameter_at(pen, kind, font, i);
    }
}

fn put_group(pen: &mut Pen, kind: Kind, font: &Font)
    ensures { Printed pen.old 0 (group (codes "FONTDIMEN") [] (loop font.now.layout.np (parameter_at kind font.now.params.now))) pen.new }
{
    items::open_group(pen, 1, b"FONTDIMEN", &[]);
    put_each_parameter(pen, kind, font);
    items::put_close(pen, 0);
}

// The parameters, where there are some.
pub fn put_fontdimen(pen: &mut Pen, kind: Kind, font: &Font)
    ensures { Printed pen.old 0 (fontdimen kind font.now.params.now font.now.layout.np) pen.new }
{
    if font.layout.np != 0 {
        put_group(pen, kind, font);
    }
}
