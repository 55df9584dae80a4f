// The characters of a font, printed as 003 §78 to §86 do.
ghost use Rattle.std.specs.Prelude.{◌≡◌};
ghost use Rattle.items.specs.Items.{Printed};
ghost use Rattle.listing.specs.Characters.{width_item, length_item};
ghost use Rattle.listing.specs.Settings.{lengths_of, shown_of, piece_of, optional_of, recipe_of, varchar_of, comment_of, tag_of, present_of, character_of, characters_of};

use items::Word;
use lent::Pen;
use tfm::{CharInfo, Font, Lookup};

fn put_width(pen: &mut Pen, widths: &[u8], i: u8)
    ensures { Printed pen.old 1 (width_item widths.now i) pen.new }
{
    let word = tfm::word_of(widths, i as u32);
    if (i as usize) < widths.len() / 4 {
        items::put_leaf(pen, 1, b"CHARWD", &[Word::Real(word)]);
    } else {
        items::put_leaf(pen, 1, b"CHARWD", &[]);
    }
}

fn put_length(pen: &mut Pen, name: &[u8], t: &[u8], i: u8)
    ensures { Printed pen.old 1 (length_item name.now t.now i) pen.new }
{
    let word = tfm::word_of(t, i as u32);
    if (i != 0) & ((i as usize) < t.len() / 4) {
        items::put_leaf(pen, 1, name, &[Word::Real(word)]);
    }
}

fn put_lengths(pen: &mut Pen, font: &Font, info: CharInfo)
    ensures { Printed pen.old 1 (lengths_of font.now info) pen.new }
{
    put_width(pen, font.widths, info.width);
    put_length(pen, b"CHARHT", font.heights, info.height);
    put_length(pen, b"CHARDP", font.depths, info.depth);
    put_length(pen, b"CHARIC", font.italics, info.italic);
}

fn shown(font: &Font, char: u8, piece: u8) -> u8
    ensures { result ≡ shown_of font.now char piece }
{
    if tfm::exists(font, piece as u32) {
        piece
    } else {
        char
    }
}

// What each character is printed from: whether codes stand by their letters, the font, and where its programs start.
#[derive(Clone, Copy)]
pub struct Setting<'a> {
    pub letters: bool,
    pub font: &'a Font<'a>,
    pub starts: &'a [u32],
}

impl<'a> Setting<'a> {
    fn put_piece(&self, pen: &mut Pen, char: u8, name: &[u8], piece: u8)
        ensures { Printed pen.old 2 (piece_of self.now char name.now piece) pen.new }
    {
        let code = shown(self.font, char, piece);
        items::put_leaf(pen, 2, name, &[Word::Code(self.letters, code)]);
    }

    fn put_optional(&self, pen: &mut Pen, char: u8, name: &[u8], piece: u8)
        ensures { Printed pen.old 2 (optional_of self.now char name.now piece) pen.new }
    {
        if piece != 0 {
            self.put_piece(pen, char, name, piece);
        }
    }

    fn put_recipe(&self, pen: &mut Pen, char: u8, r: u8)
        ensures { Printed pen.old 2 (recipe_of self.now char r) pen.new }
    {
        let recipes = self.font.recipes;
        self.put_optional(pen, char, b"TOP", tfm::byte_of(recipes, r as u32, 0));
        self.put_optional(pen, char, b"MID", tfm::byte_of(recipes, r as u32, 1));
        self.put_optional(pen, char, b"BOT", tfm::byte_of(recipes, r as u32, 2));
        self.put_piece(pen, char, b"REP", tfm::byte_of(recipes, r as u32, 3));
    }

    fn put_varchar(&self, pen: &mut Pen, char: u8, r: u8)
        ensures { Printed pen.old 1 (varchar_of self.now char r) pen.new }
    {
        items::open_group(pen, 2, b"VARCHAR", &[]);
        self.put_recipe(pen, char, r);
        items::put_close(pen, 1);
    }

    fn put_program(&self, pen: &mut Pen, char: u8)
        ensures { Printed pen.old 1 (comment_of self.now char) pen.new }
    {
        let start = lent::at(self.starts, char as usize, 0);
        ligatures::put_comment(pen, self.letters, self.font, start);
    }

    // By the tag: the program as a comment, the link or the recipe.
    fn put_tag(&self, pen: &mut Pen, char: u8, info: CharInfo)
        ensures { Printed pen.old 1 (tag_of self.now char info) pen.new }
    {
        match info.tag {
            tfm::HAS_PROGRAM => self.put_program(pen, char),
            tfm::HAS_LARGER => items::put_leaf(
                pen,
                1,
                b"NEXTLARGER",
                &[Word::Code(self.letters, info.remainder)],
            ),
            tfm::HAS_RECIPE => self.put_varchar(pen, char, info.remainder),
            _ => {}
        }
    }

    fn put_present(&self, pen: &mut Pen, char: u8, info: CharInfo)
        ensures { Printed pen.old 0 (present_of self.now char info) pen.new }
    {
        items::open_group(pen, 1, b"CHARACTER", &[Word::Code(self.letters, char)]);
        put_lengths(pen, self.font, info);
        self.put_tag(pen, char, info);
        items::put_close(pen, 0);
    }

    fn put_character(&self, pen: &mut Pen, char: u8)
        ensures { Printed pen.old 0 (character_of self.now char) pen.new }
    {
        if let Lookup::Present(info) = tfm::look_up(self.font, char as u32) {
            self.put_present(pen, char, info);
        }
    }

    // All the characters of the font.
    pub fn put_characters(&self, pen: &mut Pen)
        ensures { Printed pen.old 0 (characters_of self.now) pen.new }
    {
        for char in 0..=255u8 {
            self.put_character(pen, char);
        }
    }
}
