// Which findings are there. A finding has a tag and two numbers. They come singly, and a struct would be no plainer: `firsts` and `seconds` are asked
// before all three are known, and the records' writer, C and README take them singly.
// A tag is its number in a record, since the theorems count from one tag to the next: an arm says by what it calls which finding that is.
ghost use Rattle.std.specs.Prelude.{◌≡◌, ◌≤◌};
ghost use Rattle.tfm.specs.Subfiles.{table_of};
ghost use Rattle.mend.specs.Holds.{OwnTables, length_table, table_number, junk, holds_of, lowest, firsts, seconds};

use faults::{characters, header, steps};
use tfm::{Font, Layout};

// What is looked at: a file, a font and the marks of its steps. The font's char_info and lig_kern may be any, its other tables are the file's.
#[derive(Clone, Copy)]
pub struct Looked<'a> {
    pub file: &'a [u8],
    pub font: Font<'a>,
    pub marks: &'a [u8],
    ghost own: { OwnTables file.now font },
}

impl<'a> Looked<'a> {
    // Cuts the other tables once.
    pub fn new(file: &'a [u8], font: &Font<'a>, marks: &'a [u8]) -> Looked<'a>
        ensures file { result.file ≡ file.entry }
        ensures infos { result.font.infos ≡ font.now.infos }
        ensures steps { result.font.steps ≡ font.now.steps }
        ensures layout { result.font.layout ≡ font.now.layout }
        ensures marks { result.marks ≡ marks.entry }
    {
        let font = Font {
            infos: font.infos,
            steps: font.steps,
            ..tfm::tables_of(file, font.layout)
        };
        Looked { file, font, marks }
    }

    // Finding 1.
    #[tactic(auto, unfolding(crate::specs::Holds::junk))]
    fn junk(&self) -> bool
        ensures { result ≡ junk self.now.file.now self.now.font.layout }
    {
        4 * (self.font.layout.lf as usize) < self.file.len()
    }

    // The table of a number as findings 8 and 9 say it: width, height, depth, italic, kern. `length_table` goes by the same numbers: here is the slice,
    // which is cut once, and there the subfile's number, for `tfm::count`.
    #[tactic(auto, unfolding(crate::specs::Holds::length_table))]
    fn lengths(&self, number: u32) -> &[u8]
        ensures { result.now ≡ table_of self.now.file.now self.now.font.layout (length_table number) }
    {
        match number {
            0 => self.font.widths,
            1 => self.font.heights,
            2 => self.font.depths,
            3 => self.font.italics,
            _ => self.font.kerns,
        }
    }

    #[tactic(auto, unfolding(crate::specs::Holds::holds_of, crate::specs::Holds::table_number, lent::specs::Answer::first))]
    pub fn holds(&self, tag: u32, first: u32, second: u32) -> bool
        ensures { result ≡ holds_of self.now.file.now self.now.font.infos.now self.now.font.steps.now self.now.marks.now
            (table_of self.now.file.now self.now.font.layout (table_number tag first)) self.now.font.layout tag first second }
    {
        let font = &self.font;
        let marks = self.marks;
        match tag {
            1 => self.junk(),
            2 => header::string_too_long(font, first),
            3 => header::parenthesis(font, first, second),
            4 => header::nonstandard(font, first, second),
            5 => header::bad_design_size(font),
            6 => header::unusual_count(font),
            7 => header::bad_parameter(font, first),
            8 => header::not_zero(self.lengths(first)),
            9 => tfm::too_big(self.lengths(first), second),
            10 => steps::bad_boundary(font),
            11 => steps::bad_start(font, first),
            12 => steps::skips_too_far(font, marks, first),
            13 => steps::bad_address(font, marks, first),
            14 => steps::step_for_missing(font, marks, first),
            15 => steps::ligature_to_missing(font, marks, first),
            16 => steps::bad_kern(font, marks, first),
            17 => steps::odd_code(font, marks, first),
            19 => characters::piece_missing(font, first, second),
            20 => characters::bad_index(font, first, second),
            21 => characters::link_missing(font, first),
            22 => characters::ends_cycle(font, first),
            23 => characters::bad_recipe(font, first),
            _ => false,
        }
    }
}

// The lowest first number that is looked at.
#[tactic(auto, unfolding(crate::specs::Holds::lowest))]
pub fn lowest(layout: Layout, tag: u32) -> u16
    ensures { result ≡ lowest layout tag }
{
    match tag {
        6 => layout.np,
        7 => 2,
        11 | 20.. => layout.bc,
        _ => 0,
    }
}

// How many first numbers are looked at.
#[tactic(auto, unfolding(crate::specs::Holds::firsts))]
pub fn firsts(layout: Layout, tag: u32) -> u32
    ensures value { result ≡ firsts layout tag }
    ensures bound { result ≤ 65536 }
{
    match tag {
        1 | 5 | 6 | 10 => 1,
        2..=4 => 2,
        7 => (layout.np as u32).saturating_sub(1),
        8 => 4,
        9 => 5,
        12..=17 => layout.nl as u32,
        19 => layout.ne as u32,
        11 | 20..=23 => tfm::chars(layout),
        _ => 0,
    }
}

// The subfile of the table of a number as finding 9 says it: width, height, depth, italic, kern.
#[tactic(auto, unfolding(crate::specs::Holds::length_table))]
fn length_table(number: u32) -> u8
    ensures { result ≡ length_table number }
{
    if number < 4 { (number + 2) as u8 } else { 7 }
}

// How many second numbers are looked at.
#[tactic(auto, unfolding(crate::specs::Holds::seconds, crate::specs::Holds::table_number, lent::specs::Answer::first))]
pub fn seconds(layout: Layout, tag: u32, first: u32) -> u32
    ensures { result ≡ seconds layout tag first }
{
    match tag {
        3 | 4 => 40,
        9 => tfm::count(layout, length_table(first)),
        19 | 20 => 4,
        _ => 1,
    }
}
