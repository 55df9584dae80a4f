// The ligature program of a font: what a step says, where programs start, and which steps are reached.
#![tactic(auto)]

ghost use Rattle.std.specs.Prelude.{◌≡◌, ◌-◌, unwrap_or};
ghost use Rattle.lent.specs.Fold.{iterate};
ghost use Rattle.tfm.specs.Sizes.{chars};
ghost use Rattle.program.specs.Steps.{address_of, boundary_char, has_boundary, boundary_start, redirects, redirected, next_of, below, program_of};
ghost use Rattle.program.specs.Marks.{store_if, mark_first, mark_last, mark_label, mark_info, mark_step, marks_from, marks_of};

use tfm::{Font, Layout};

// Bytes 2 and 3 of step i as one number.
#[tactic(auto, unfolding(crate::specs::Steps::address_of))]
pub fn address(steps: &[u8], i: u32) -> u32
    ensures { result ≡ address_of steps.now i }
{
    u16::from_be_bytes([tfm::byte_of(steps, i, 2), tfm::byte_of(steps, i, 3)]) as u32
}

// The right boundary character.
#[tactic(auto, unfolding(crate::specs::Steps::boundary_char))]
pub fn boundary_char(steps: &[u8]) -> Option<u8>
    ensures { unwrap_or result 256 ≡ boundary_char steps.now }
{
    if tfm::byte_of(steps, 0, 0) == 255 {
        Some(tfm::byte_of(steps, 0, 1))
    } else {
        None
    }
}

// The last step, or 0.
fn last(layout: Layout) -> u32
    ensures { result ≡ layout.nl - 1 }
{
    (layout.nl as u32).saturating_sub(1)
}

// The last step gives the left boundary a start.
#[tactic(auto, unfolding(crate::specs::Steps::has_boundary))]
pub fn has_boundary(font: &Font) -> bool
    ensures { result ≡ has_boundary font.now.steps.now font.now.layout }
{
    tfm::byte_of(font.steps, last(font.layout), 0) == 255
}

// The address of the last step. It is no Option beside the test above: what is promised of it holds where the test fails too.
#[tactic(auto, unfolding(crate::specs::Steps::boundary_start))]
pub fn boundary_start(font: &Font) -> u32
    ensures { result ≡ boundary_start font.now.steps.now font.now.layout }
{
    address(font.steps, last(font.layout))
}

// The step r, as a first step, sends the program to its address.
#[tactic(auto, unfolding(crate::specs::Steps::redirects))]
pub fn redirects(font: &Font, r: u32) -> bool
    ensures { result ≡ redirects font.now.steps.now font.now.layout r }
{
    (r < font.layout.nl as u32) & (128 < tfm::byte_of(font.steps, r, 0))
}

// Where a program starts that a character starts at r.
#[tactic(auto, unfolding(crate::specs::Steps::redirected))]
pub fn redirected(font: &Font, r: u32) -> u32
    ensures { result ≡ redirected font.now.steps.now font.now.layout r }
{
    if redirects(font, r) {
        address(font.steps, r)
    } else {
        r
    }
}

// The step that step i skips to.
#[tactic(auto, unfolding(crate::specs::Steps::next_of))]
pub fn next_step(steps: &[u8], i: u32) -> usize
    ensures { result ≡ next_of steps.now i }
{
    (i as usize) + 1 + (tfm::byte_of(steps, i, 0) as usize)
}

fn below(layout: Layout, start: u32) -> u32
    ensures { result ≡ below layout start }
{
    start.min(layout.nl as u32)
}

// Where the program of a code starts, 256 being the left boundary, or nl where it has none.
// It is no Option: `program_of`, and the table of starts that is made of it, are numbers, nl among them.
#[tactic(auto, unfolding(crate::specs::Steps::program_of))]
pub fn program_start(font: &Font, code: u32) -> u32
    ensures { result ≡ program_of font.now.infos.now font.now.steps.now font.now.layout code }
{
    let layout = font.layout;
    let info = tfm::info_for(font, code);
    if code == 256 {
        if has_boundary(font) {
            below(layout, boundary_start(font))
        } else {
            layout.nl as u32
        }
    } else if tfm::in_range(layout, code) & (info.tag == tfm::HAS_PROGRAM) {
        below(layout, redirected(font, info.remainder as u32))
    } else {
        layout.nl as u32
    }
}

// The marks of a step: none of the programs reaches it, or it is passed through, or accessible.
// They stay numbers, and no enum, since `marks_of` and the theorems about it in specs/ speak of numbers.
pub const UNREACHABLE: u8 = 0;

pub const PASSED: u8 = 1;

pub const ACCESSIBLE: u8 = 2;

#[tactic(auto, unfolding(crate::specs::Marks::store_if))]
fn store_if(marks: &mut [u8], test: bool, i: usize, mark: u8)
    ensures { marks.new ≡ store_if test marks.old i mark }
{
    if test {
        lent::store(marks, i, mark);
    }
}

// 003 §69, the first step.
#[tactic(auto, unfolding(crate::specs::Marks::mark_first))]
fn mark_first(font: &Font, marks: &mut [u8])
    ensures { marks.new ≡ mark_first font.now.steps.now marks.old }
{
    store_if(marks, tfm::byte_of(font.steps, 0, 0) == 255, 0, PASSED);
}

// 003 §69, the last step.
#[tactic(auto, unfolding(crate::specs::Marks::mark_last))]
fn mark_last(font: &Font, marks: &mut [u8])
    ensures { marks.new ≡ mark_last font.now.steps.now font.now.layout marks.old }
{
    let there = has_boundary(font);
    let start = boundary_start(font);
    store_if(
        marks,
        there & (start < font.layout.nl as u32),
        start as usize,
        ACCESSIBLE,
    );
    store_if(marks, there, last(font.layout) as usize, PASSED);
}

// 003 §67 and §68, a program that a character starts at r.
#[tactic(auto, unfolding(crate::specs::Marks::mark_label))]
fn mark_label(font: &Font, marks: &mut [u8], r: u32)
    ensures { marks.new ≡ mark_label font.now.steps.now font.now.layout marks.old r }
{
    let start = redirected(font, r);
    let good = start < font.layout.nl as u32;
    let passed = redirects(font, r) & good & (lent::at(marks, r as usize, 0) == 0);
    store_if(marks, passed, r as usize, PASSED);
    store_if(marks, good, start as usize, ACCESSIBLE);
}

// 003 §67, word k of char_info.
#[tactic(auto, unfolding(crate::specs::Marks::mark_info))]
fn mark_info(font: &Font, marks: &mut [u8], k: u32)
    ensures { marks.new ≡ mark_info font.now.infos.now font.now.steps.now font.now.layout marks.old k }
{
    let info = tfm::char_info(font.infos, k);
    if info.tag == tfm::HAS_PROGRAM {
        mark_label(font, marks, info.remainder as u32);
    }
}

#[tactic(auto, using(lent::proofs::Lists::iterate_more), unfolding(lent::specs::Fold::iterate))]
// By number, as a word past the end of the file counts as 0.
fn mark_infos(font: &Font, marks: &mut [u8])
    ensures { marks.new ≡ iterate (mark_info font.now.infos.now font.now.steps.now font.now.layout) marks.old (chars font.now.layout) }
{
    for k in 0..tfm::chars(font.layout) {
        mark_info(font, marks, k);
    }
}

// 003 §70, step i.
#[tactic(auto, unfolding(crate::specs::Marks::mark_step))]
fn mark_step(font: &Font, marks: &mut [u8], i: u32)
    ensures { marks.new ≡ mark_step font.now.steps.now font.now.layout marks.old i }
{
    let next = next_step(font.steps, i);
    let skips = (lent::at(marks, i as usize, 0) == ACCESSIBLE)
        & (tfm::byte_of(font.steps, i, 0) < 128);
    store_if(
        marks,
        skips & (next < font.layout.nl as usize),
        next,
        ACCESSIBLE,
    );
}

#[tactic(auto, using(lent::proofs::Lists::iterate_more), unfolding(lent::specs::Fold::iterate))]
// By number, as the mark of a later step may be set.
fn mark_steps(font: &Font, marks: &mut [u8])
    ensures { marks.new ≡ iterate (mark_step font.now.steps.now font.now.layout) marks.old font.now.layout.nl }
{
    for i in 0..font.layout.nl as u32 {
        mark_step(font, marks, i);
    }
}

// Marks each step; over zeros, the marks are those of `marks`. The array is lent, since one that is returned lies on the stack once more.
#[tactic(auto, unfolding(crate::specs::Marks::marks_from))]
pub fn mark_all(font: &Font, marks: &mut [u8])
    ensures { marks.new ≡ marks_from font.now.infos.now font.now.steps.now font.now.layout marks.old }
{
    mark_first(font, marks);
    mark_last(font, marks);
    mark_infos(font, marks);
    mark_steps(font, marks);
}

// The mark of each step as it stands after 003 §70. They are no part of a `Font`: a listing prints the font of a copy by the marks of the file.
#[tactic(auto, unfolding(crate::specs::Marks::marks_of))]
pub fn marks(font: &Font) -> [u8; 32768]
    ensures { result ≡ marks_of font.now.infos.now font.now.steps.now font.now.layout }
{
    let mut marks = [0u8; 32768];
    mark_all(font, &mut marks);
    marks
}
