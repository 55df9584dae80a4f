// A TFM file: its twelve sizes, its ten subfiles, its characters and their lengths.
#![tactic(auto)]

mod refusal;

ghost use Rattle.std.specs.Prelude.{◌≡◌, ◌+◌, ◌-◌, ◌*◌, ◌/◌, ◌%◌, ◌≤◌, length, sum, IfOk, ◌∷◌, []};
ghost use Rattle.std.proofs.Common.{to_z};
ghost use Rattle.std.specs.Int.{w32};
ghost use Rattle.lent.specs.Part.{PartOf};
ghost use Rattle.tfm.specs.Sizes.{size_at, layout_of, chars, over, any_over, any_empty, layout_number, number_of, size_list, sizes_answer};
ghost use Rattle.tfm.specs.Refusal.{refused};
ghost use Rattle.tfm.specs.Subfiles.{counts, count_of, start_of, table_of, FontOf, subfile_number, subfile_start, subfile_of};
ghost use Rattle.tfm.specs.Characters.{byte_of, info_of, untagged, in_range, exists_in, look_up};
ghost use Rattle.tfm.specs.Lengths.{word_of, too_big, index_in, entry_of, eye_of, lengths_in, answered, eye_answer};

pub use refusal::{Refusal, number_of};

// The twelve sizes, in file order.
#[derive(Clone, Copy, Debug, PartialEq, Eq)]
pub struct Layout {
    pub lf: u16,
    pub lh: u16,
    pub bc: u16,
    pub ec: u16,
    pub nw: u16,
    pub nh: u16,
    pub nd: u16,
    pub ni: u16,
    pub nl: u16,
    pub nk: u16,
    pub ne: u16,
    pub np: u16,
}

#[tactic(auto, unfolding(crate::specs::Sizes::size_at))]
fn size(file: &[u8], k: u32) -> u16
    ensures { result ≡ size_at file.now k }
{
    let i = 2 * (k as usize);
    u16::from_be_bytes([lent::at(file, i, 0), lent::at(file, i + 1, 0)])
}

#[tactic(auto, unfolding(crate::specs::Sizes::layout_of))]
pub fn read_layout(file: &[u8]) -> Layout
    ensures { result ≡ layout_of file.now }
{
    Layout {
        lf: size(file, 0),
        lh: size(file, 1),
        bc: size(file, 2),
        ec: size(file, 3),
        nw: size(file, 4),
        nh: size(file, 5),
        nd: size(file, 6),
        ni: size(file, 7),
        nl: size(file, 8),
        nk: size(file, 9),
        ne: size(file, 10),
        np: size(file, 11),
    }
}

// ec - bc + 1, and 0 where that is negative.
pub fn chars(layout: Layout) -> u32
    ensures { result ≡ chars layout }
{
    (layout.ec as u32 + 1).saturating_sub(layout.bc as u32)
}

// The words of each subfile.
fn counts(layout: Layout) -> [u32; 10]
    ensures { result ≡ counts layout }
{
    [
        layout.lh as u32,
        chars(layout),
        layout.nw as u32,
        layout.nh as u32,
        layout.nd as u32,
        layout.ni as u32,
        layout.nl as u32,
        layout.nk as u32,
        layout.ne as u32,
        layout.np as u32,
    ]
}

// The words of subfile k. A subfile is a number here and below, and no enum: C and `subfile` take any, and `count_of` and `table_of` of specs/ speak of it.
#[tactic(auto, unfolding(crate::specs::Subfiles::count_of))]
pub fn count(layout: Layout, k: u8) -> u32
    ensures value { result ≡ count_of layout k }
    ensures bound { result ≤ 65536 }
{
    let counts = counts(layout);
    lent::at(&counts, k as usize, 0)
}

fn total(counts: &[u32]) -> usize
    requires { length counts.now ≤ 10 }
    ensures { result ≡ sum counts.now }
{
    counts.iter().map(|&n| n as usize).sum()
}

// The word at which subfile k begins, and of 10 the words that the sizes ask for.
pub fn start(layout: Layout, k: u8) -> usize
    ensures value { result ≡ start_of layout k }
    ensures bound { result ≤ 6 + 4294967295 * k }
{
    let counts = counts(layout);
    6 + total(&counts[..(k as usize).min(counts.len())])
}

// The first byte of a size exceeds 127.
fn over(size: u16) -> bool
    ensures { result ≡ over size }
{
    127 < size / 256
}

fn any_over(layout: Layout) -> bool
    ensures { result ≡ any_over layout }
{
    over(layout.lh)
        | over(layout.bc)
        | over(layout.ec)
        | over(layout.nw)
        | over(layout.nh)
        | over(layout.nd)
        | over(layout.ni)
        | over(layout.nl)
        | over(layout.nk)
        | over(layout.ne)
        | over(layout.np)
}

fn any_empty(layout: Layout) -> bool
    ensures { result ≡ any_empty layout }
{
    (layout.nw == 0) | (layout.nh == 0) | (layout.nd == 0) | (layout.ni == 0)
}

// The refusals 7 to 12.
#[tactic(auto, unfolding(crate::specs::Sizes::layout_number, lent::specs::Answer::first))]
fn check_layout(layout: Layout) -> Result<(), Refusal>
    ensures { refused result ≡ layout_number layout 0 }
{
    let bc = layout.bc as u32;
    let ec = layout.ec as u32;
    if any_over(layout) {
        return Err(Refusal::SizeOver127);
    }
    if layout.lh < 2 {
        return Err(Refusal::ShortHeader);
    }
    if (ec + 1 < bc) | (255 < ec) {
        return Err(Refusal::ImpossibleRange);
    }
    if any_empty(layout) {
        return Err(Refusal::EmptyTable);
    }
    if 256 < layout.ne {
        return Err(Refusal::TooManyRecipes);
    }
    if layout.lf as usize != start(layout, 10) {
        return Err(Refusal::SizesDisagree);
    }
    Ok(())
}

// The refusals 1 to 12. In line, as a call would be a seventh of what the twelve sizes or a subfile take.
#[tactic(auto, unfolding(crate::specs::Sizes::number_of, lent::specs::Answer::first))]
#[inline(always)]
pub fn check(file: &[u8], layout: Layout) -> Result<(), Refusal>
    ensures { refused result ≡ number_of file.now layout 0 }
{
    let lf = layout.lf as usize;
    if file.is_empty() {
        return Err(Refusal::NoBytes);
    }
    if 127 < lent::at(file, 0, 0) {
        return Err(Refusal::FirstByteOver127);
    }
    if file.len() == 1 {
        return Err(Refusal::OneByte);
    }
    if lf == 0 {
        return Err(Refusal::LengthZero);
    }
    if file.len() < 4 * lf {
        return Err(Refusal::FewerBytesThanSaid);
    }
    if lf < 6 {
        return Err(Refusal::FewerThanSixWords);
    }
    check_layout(layout)
}

// The answer's number, and the twelve sizes in file order, all zero on refusal.
// It is no Result, since docs/TRACE.md, "Forms for parts of the code", asks for the sizes by value beside the number.
#[derive(Clone, Copy, Debug, PartialEq, Eq)]
pub struct TwelveSizes {
    pub number: u8,
    pub sizes: [u16; 12],
}

impl From<Layout> for [u16; 12] {
    ghost from_gives = { λ layout sizes. sizes ≡ size_list layout };

    #[tactic(auto, unfolding(crate::specs::Sizes::size_list))]
    fn from(layout: Layout) -> [u16; 12] {
        let Layout {
            lf,
            lh,
            bc,
            ec,
            nw,
            nh,
            nd,
            ni,
            nl,
            nk,
            ne,
            np,
        } = layout;
        [lf, lh, bc, ec, nw, nh, nd, ni, nl, nk, ne, np]
    }
}

#[tactic(auto, unfolding(crate::specs::Sizes::sizes_answer, lent::specs::Answer::on_accept))]
pub fn sizes(file: &[u8]) -> TwelveSizes
    ensures { result ≡ sizes_answer file.now }
{
    let layout = read_layout(file);
    match check(file, layout) {
        Ok(()) => TwelveSizes {
            number: 0,
            sizes: layout.into(),
        },
        Err(refusal) => TwelveSizes {
            number: refusal.number(),
            sizes: [0; 12],
        },
    }
}

// The bytes of subfile k, as that part of the file.
#[tactic(auto, unfolding(crate::specs::Subfiles::table_of))]
pub fn table(file: &[u8], layout: Layout, k: u8) -> &[u8]
    ensures { PartOf file.entry (4 * start_of layout k) (table_of file.now layout k) result }
{
    lent::part(file, 4 * start(layout, k), 4 * (count(layout, k) as usize))
}

// The sizes of a file and its ten subfiles, in file order.
#[derive(Clone, Copy, Debug, PartialEq, Eq)]
pub struct Font<'a> {
    pub layout: Layout,
    pub header: &'a [u8],
    pub infos: &'a [u8],
    pub widths: &'a [u8],
    pub heights: &'a [u8],
    pub depths: &'a [u8],
    pub italics: &'a [u8],
    pub steps: &'a [u8],
    pub kerns: &'a [u8],
    pub recipes: &'a [u8],
    pub params: &'a [u8],
}

// The font that a file of these sizes is.
pub fn tables_of(file: &[u8], layout: Layout) -> Font<'_>
    ensures { FontOf file.now layout result }
{
    Font {
        layout,
        header: table(file, layout, 0),
        infos: table(file, layout, 1),
        widths: table(file, layout, 2),
        heights: table(file, layout, 3),
        depths: table(file, layout, 4),
        italics: table(file, layout, 5),
        steps: table(file, layout, 6),
        kerns: table(file, layout, 7),
        recipes: table(file, layout, 8),
        params: table(file, layout, 9),
    }
}

// That part of the caller's own file.
#[tactic(auto, using(crate::proofs::Refusals::refusal_later, crate::proofs::Refusals::accepted_later), unfolding(crate::specs::Subfiles::subfile_number, crate::specs::Subfiles::subfile_start, crate::specs::Subfiles::subfile_of, lent::specs::Answer::first, lent::specs::Answer::on_accept))]
pub fn try_subfile(file: &[u8], k: u8) -> Result<&[u8], Refusal>
    ensures refusal { refused result ≡ subfile_number file.now k }
    ensures part { IfOk result
        (λ bytes. PartOf file.entry (subfile_start file.now k) (subfile_of file.now k) bytes) }
{
    let layout = read_layout(file);
    check(file, layout)?;
    if 9 < k {
        return Err(Refusal::OutOfRange);
    }
    Ok(table(file, layout, k))
}

// The number of that answer.
pub fn subfile_number(file: &[u8], k: u8) -> u8
    ensures { result ≡ subfile_number file.now k }
{
    number_of(&try_subfile(file, k))
}

// The same part, and an empty one where it is refused.
#[tactic(auto, using(crate::proofs::Refusals::number_positive), unfolding(crate::specs::Subfiles::subfile_start, crate::specs::Subfiles::subfile_of, lent::specs::Answer::on_accept))]
pub fn subfile(file: &[u8], k: u8) -> &[u8]
    ensures { PartOf file.entry (subfile_start file.now k) (subfile_of file.now k) result }
{
    match try_subfile(file, k) {
        Ok(bytes) => bytes,
        Err(_) => lent::part(file, 0, 0),
    }
}

// Byte j of word i of a table.
#[tactic(auto, unfolding(crate::specs::Characters::byte_of))]
pub fn byte_of(table: &[u8], i: u32, j: u32) -> u8
    ensures { result ≡ byte_of table.now i j }
{
    lent::at(table, 4 * (i as usize) + (j as usize), 0)
}

// Shifts and masks here and below: docs/TRACE.md, "Forms for parts of the code", asks for them.
fn high4(b: u8) -> u8
    ensures { result ≡ b / 16 }
{
    b >> 4
}

fn low4(b: u8) -> u8
    ensures { result ≡ b % 16 }
{
    b & 15
}

fn high6(b: u8) -> u8
    ensures { result ≡ b / 4 }
{
    b >> 2
}

fn low2(b: u8) -> u8
    ensures { result ≡ b % 4 }
{
    b & 3
}

// The third byte of a char_info word, with its tag set to zero.
pub fn untag(b: u8) -> u8
    ensures { result ≡ untagged b }
{
    b & 252
}

// The tags: the remainder says where a ligature program starts, which character is the next larger one, or which recipe builds the character. 0 says none.
pub const HAS_PROGRAM: u8 = 1;

pub const HAS_LARGER: u8 = 2;

pub const HAS_RECIPE: u8 = 3;

// A char_info word: four indices, the tag and the remainder.
// The tag is a number, and no enum, since the definitions of specs/ and the theorems about them compare it with numbers (`program_of`, `links`, `bad_recipe`).
#[derive(Clone, Copy, Debug, PartialEq, Eq)]
pub struct CharInfo {
    pub width: u8,
    pub height: u8,
    pub depth: u8,
    pub italic: u8,
    pub tag: u8,
    pub remainder: u8,
}

// Word i of char_info.
#[tactic(auto, unfolding(crate::specs::Characters::info_of))]
pub fn char_info(infos: &[u8], i: u32) -> CharInfo
    ensures { result ≡ info_of infos.now i }
{
    let second = byte_of(infos, i, 1);
    let third = byte_of(infos, i, 2);
    CharInfo {
        width: byte_of(infos, i, 0),
        height: high4(second),
        depth: low4(second),
        italic: high6(third),
        tag: low2(third),
        remainder: byte_of(infos, i, 3),
    }
}

// The word of a code, whether it is a character or not.
pub fn info_for(font: &Font, code: u32) -> CharInfo
    ensures { result ≡ info_of font.now.infos.now (code - font.now.layout.bc) }
{
    char_info(font.infos, code.saturating_sub(font.layout.bc as u32))
}

#[tactic(auto, unfolding(crate::specs::Characters::in_range))]
pub fn in_range(layout: Layout, code: u32) -> bool
    ensures { result ≡ in_range layout code }
{
    (layout.bc as u32 <= code) & (code <= layout.ec as u32)
}

// The code is a character, by the words of char_info.
#[tactic(auto, unfolding(crate::specs::Characters::exists_in))]
fn exists_in(infos: &[u8], layout: Layout, code: u32) -> bool
    ensures { result ≡ exists_in infos.now layout code }
{
    let i = code.saturating_sub(layout.bc as u32);
    in_range(layout, code) & (byte_of(infos, i, 0) != 0)
}

// The code is a character.
pub fn exists(font: &Font, code: u32) -> bool
    ensures { result ≡ exists_in font.now.infos.now font.now.layout code }
{
    exists_in(font.infos, font.layout, code)
}

// What stands in a file for a code.
// It is no Option, since docs/TRACE.md, "Forms for parts of the code", asks for Present and Missing.
#[derive(Clone, Copy, Debug, PartialEq, Eq)]
pub enum Lookup {
    Present(CharInfo),
    Missing,
}

#[tactic(auto, unfolding(crate::specs::Characters::look_up))]
fn look_up_in(infos: &[u8], layout: Layout, code: u32) -> Lookup
    ensures { result ≡ look_up infos.now layout code }
{
    if exists_in(infos, layout, code) {
        Lookup::Present(char_info(infos, code.saturating_sub(layout.bc as u32)))
    } else {
        Lookup::Missing
    }
}

pub fn look_up(font: &Font, code: u32) -> Lookup
    ensures { result ≡ look_up font.now.infos.now font.now.layout code }
{
    look_up_in(font.infos, font.layout, code)
}

// Word i of a table.
#[tactic(auto, unfolding(crate::specs::Lengths::word_of))]
pub fn word_of(table: &[u8], i: u32) -> u32
    ensures { result ≡ word_of table.now i }
{
    u32::from_be_bytes([
        byte_of(table, i, 0),
        byte_of(table, i, 1),
        byte_of(table, i, 2),
        byte_of(table, i, 3),
    ])
}

// Finding 9 clears word i of the table.
#[tactic(auto, unfolding(crate::specs::Lengths::too_big))]
pub fn too_big(table: &[u8], i: u32) -> bool
    ensures { result ≡ too_big table.now i }
{
    let b = byte_of(table, i, 0);
    (b != 0) & (b != 255)
}

// The entry that the index i reads.
#[tactic(auto, unfolding(crate::specs::Lengths::index_in))]
fn index_in(table: &[u8], i: u32) -> u32
    ensures { result ≡ index_in table.now i }
{
    if (i as usize) < table.len() / 4 { i } else { 0 }
}

// What the index i reads, as it is meant.
#[tactic(auto, unfolding(crate::specs::Lengths::entry_of))]
fn entry(table: &[u8], i: u32) -> u32
    ensures { result ≡ entry_of table.now i }
{
    let at = index_in(table, i);
    if too_big(table, at) {
        0
    } else {
        word_of(table, at)
    }
}

// The number that a word's bits stand for in two's complement: the library's method, with a clause in the words of the specs.
fn signed(word: u32) -> i32
    ensures { result ≡ to_z w32 word }
{
    word.cast_signed()
}

#[tactic(auto, using(crate::proofs::Exact::million), unfolding(crate::specs::Lengths::eye_of))]
fn eye_length(word: u32) -> f64
    ensures { result ≡ eye_of word }
{
    (signed(word) as f64) / 1048576.0
}

// The four lengths of a character, for the renderer.
#[derive(Clone, Copy, Debug, PartialEq)]
pub struct EyeLengths {
    pub width: f64,
    pub height: f64,
    pub depth: f64,
    pub italic: f64,
}

// The four in the order width, height, depth, italic correction.
impl From<EyeLengths> for [f64; 4] {
    ghost from_gives = { λ e floats. floats ≡ e.width ∷ e.height ∷ e.depth ∷ e.italic ∷ [] };

    fn from(lengths: EyeLengths) -> [f64; 4] {
        let EyeLengths {
            width,
            height,
            depth,
            italic,
        } = lengths;
        [width, height, depth, italic]
    }
}

#[tactic(auto, unfolding(crate::specs::Lengths::lengths_in))]
fn lengths(font: &Font, info: CharInfo) -> EyeLengths
    ensures { result ≡ lengths_in font.now info }
{
    EyeLengths {
        width: eye_length(entry(font.widths, info.width as u32)),
        height: eye_length(entry(font.heights, info.height as u32)),
        depth: eye_length(entry(font.depths, info.depth as u32)),
        italic: eye_length(entry(font.italics, info.italic as u32)),
    }
}

#[tactic(auto, using(crate::proofs::Refusals::refusal_later, crate::proofs::Refusals::accepted_later), unfolding(crate::specs::Lengths::eye_answer, crate::specs::Lengths::lengths_for, crate::specs::Lengths::lengths_of, crate::specs::Lengths::lengths_in, lent::specs::Answer::first, lent::specs::Answer::on_accept))]
pub fn eye_lengths(file: &[u8], code: u32) -> Result<EyeLengths, Refusal>
    ensures { answered result ≡ eye_answer file.now code }
{
    let layout = read_layout(file);
    check(file, layout)?;
    if 255 < code {
        return Err(Refusal::OutOfRange);
    }
    // The other tables are cut only for a character that is there.
    let Lookup::Present(info) = look_up_in(table(file, layout, 1), layout, code) else {
        return Err(Refusal::NoCharacter);
    };
    Ok(lengths(&tables_of(file, layout), info))
}
