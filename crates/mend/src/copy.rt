// The mended copy: the file's first 4·lf bytes with each mend in its place.
ghost use Rattle.std.specs.Prelude.{◌≡◌, ◌*◌, ℕ};
ghost use Rattle.lent.specs.Write.{byte, each};
ghost use Rattle.lent.specs.Pens.{Written};
ghost use Rattle.tfm.specs.Subfiles.{count_of};
ghost use Rattle.mend.specs.Copy.{mended_string, mended_header, loses_tag, mended_info, mended_length, mended_step, mended_piece, mended_parameter, mended_text};

use faults::{characters, header, steps};
use lent::Pen;
use tfm::{Font, Layout};

// Byte n of a string.
#[tactic(auto, unfolding(crate::specs::Copy::mended_string, lent::specs::Answer::first))]
fn mended_string(font: &Font, string: u32, n: u32) -> u8
    ensures { result ≡ mended_string font.now.header.now font.now.layout string n }
{
    if (n == 0) & header::string_too_long(font, string) {
        1
    } else if header::parenthesis(font, string, n) {
        b'/'
    } else if header::nonstandard(font, string, n) {
        b'?'
    } else {
        header::string_byte(font, string, n)
    }
}

// Byte i of the header.
#[tactic(auto, unfolding(crate::specs::Copy::mended_header))]
fn mended_header(font: &Font, i: u32) -> u8
    ensures { result ≡ mended_header font.now.header.now font.now.layout i }
{
    match i {
        8..48 => mended_string(font, 0, i - 8),
        48..68 => mended_string(font, 1, i - 48),
        _ => lent::at(font.header, i as usize, 0),
    }
}

// Findings 11, 21, 22 and 23: the code's tag is set to 0.
#[tactic(auto, unfolding(crate::specs::Copy::loses_tag))]
fn loses_tag(font: &Font, code: u32) -> bool
    ensures { result ≡ loses_tag font.now.infos.now font.now.steps.now font.now.layout code }
{
    steps::bad_start(font, code)
        | characters::link_missing(font, code)
        | characters::ends_cycle(font, code)
        | characters::bad_recipe(font, code)
}

// Byte i of char_info.
#[tactic(auto, unfolding(crate::specs::Copy::mended_info, lent::specs::Answer::first))]
fn mended_info(font: &Font, i: u32) -> u8
    ensures { result ≡ mended_info font.now.infos.now font.now.steps.now font.now.layout i }
{
    let kept = lent::at(font.infos, i as usize, 0);
    if i % 4 == 2 && loses_tag(font, (font.layout.bc as u32) + i / 4) {
        tfm::untag(kept)
    } else {
        kept
    }
}

// Byte i of width, height, depth, italic and kern.
#[tactic(auto, unfolding(crate::specs::Copy::mended_length, lent::specs::Answer::first))]
fn mended_length(table: &[u8], i: u32) -> u8
    ensures { result ≡ mended_length table.now i }
{
    if tfm::too_big(table, i / 4) {
        0
    } else {
        lent::at(table, i as usize, 0)
    }
}

// Byte i of lig_kern.
#[tactic(auto, unfolding(crate::specs::Copy::mended_step, lent::specs::Answer::first))]
fn mended_step(font: &Font, marks: &[u8], i: u32) -> u8
    ensures { result ≡ mended_step font.now.infos.now font.now.steps.now marks.now font.now.layout i }
{
    let kept = lent::at(font.steps, i as usize, 0);
    let bc = (font.layout.bc % 256) as u8;
    match i % 4 {
        0 if steps::skips_too_far(font, marks, i / 4) => 128,
        1 if steps::step_for_missing(font, marks, i / 4) => bc,
        2 if steps::odd_code(font, marks, i / 4) => 0,
        3 if steps::ligature_to_missing(font, marks, i / 4) => bc,
        _ => kept,
    }
}

// Byte i of exten.
#[tactic(auto, unfolding(crate::specs::Copy::mended_piece, lent::specs::Answer::first))]
fn mended_piece(font: &Font, i: u32) -> u8
    ensures { result ≡ mended_piece font.now.infos.now font.now.recipes.now font.now.layout i }
{
    if (i % 4 != 3) & characters::piece_missing(font, i / 4, i % 4) {
        0
    } else {
        lent::at(font.recipes, i as usize, 0)
    }
}

// Byte i of param.
#[tactic(auto, unfolding(crate::specs::Copy::mended_parameter, lent::specs::Answer::first))]
fn mended_parameter(font: &Font, i: u32) -> u8
    ensures { result ≡ mended_parameter font.now.params.now i }
{
    if header::bad_parameter(font, i / 4 + 1) {
        0
    } else {
        lent::at(font.params, i as usize, 0)
    }
}

// A subfile, by its number as in `tfm::count`, each byte as it is mended.
fn put_part<F: Fn(u32) -> u8>(pen: &mut Pen, layout: Layout, subfile: u8, mended: F)
    requires { F.IsAlwaysCallable mended }
    ensures { (made : ℕ → ℕ) → ((i b : ℕ) → F.post mended i b → b ≡ made i) →
        Written pen.old (each (4 * count_of layout subfile) (λ i. byte (made i))) pen.new }
{
    for i in 0..4 * tfm::count(layout, subfile) {
        pen.put(mended(i));
    }
}

// The sizes, and the ten subfiles. A subfile is cut from the file, and what is looked up beside it is the font's: for the file's own font they are the same.
pub fn put_copy(pen: &mut Pen, file: &[u8], font: &Font, marks: &[u8])
    ensures { Written pen.old (mended_text file.now font.now.infos.now font.now.steps.now marks.now font.now.layout) pen.new }
{
    let layout = font.layout;
    let own = tfm::tables_of(file, layout);
    let infos = Font {
        infos: own.infos,
        ..*font
    };
    let steps = Font {
        steps: own.steps,
        ..*font
    };
    let recipes = Font {
        recipes: own.recipes,
        ..*font
    };
    pen.put_bytes(lent::part(file, 0, 24));
    put_part(pen, layout, 0, |i| mended_header(&own, i));
    put_part(pen, layout, 1, |i| mended_info(&infos, i));
    put_part(pen, layout, 2, |i| mended_length(own.widths, i));
    put_part(pen, layout, 3, |i| mended_length(own.heights, i));
    put_part(pen, layout, 4, |i| mended_length(own.depths, i));
    put_part(pen, layout, 5, |i| mended_length(own.italics, i));
    put_part(pen, layout, 6, |i| mended_step(&steps, marks, i));
    put_part(pen, layout, 7, |i| mended_length(own.kerns, i));
    put_part(pen, layout, 8, |i| mended_piece(&recipes, i));
    put_part(pen, layout, 9, |i| mended_parameter(&own, i));
}
