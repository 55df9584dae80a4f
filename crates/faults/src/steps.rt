// Findings 10 to 17: the ligature program, with the marks of its steps.
ghost use Rattle.std.specs.Prelude.{◌≡◌};
ghost use Rattle.faults.specs.Steps.{bad_boundary, bad_start, skips_too_far, looked, bad_address, is_step, is_ligature, step_for_missing, ligature_to_missing, bad_kern, odd_code};

use tfm::Font;

// Finding 10.
#[tactic(auto, unfolding(crate::specs::Steps::bad_boundary))]
pub fn bad_boundary(font: &Font) -> bool
    ensures { result ≡ bad_boundary font.now.steps.now font.now.layout }
{
    program::has_boundary(font) & (font.layout.nl as u32 <= program::boundary_start(font))
}

// Finding 11.
#[tactic(auto, unfolding(crate::specs::Steps::bad_start, crate::specs::Steps::bad_label))]
pub fn bad_start(font: &Font, code: u32) -> bool
    ensures { result ≡ bad_start font.now.infos.now font.now.steps.now font.now.layout code }
{
    let info = tfm::info_for(font, code);
    tfm::in_range(font.layout, code)
        & (info.tag == tfm::HAS_PROGRAM)
        & (font.layout.nl as u32 <= program::redirected(font, info.remainder as u32))
}

// Finding 12.
#[tactic(auto, unfolding(crate::specs::Steps::skips_too_far))]
pub fn skips_too_far(font: &Font, marks: &[u8], i: u32) -> bool
    ensures { result ≡ skips_too_far font.now.steps.now marks.now font.now.layout i }
{
    (lent::at(marks, i as usize, 0) == program::ACCESSIBLE)
        & (tfm::byte_of(font.steps, i, 0) < 128)
        & (font.layout.nl as usize <= program::next_step(font.steps, i))
}

// Step i is not passed through.
#[tactic(auto, unfolding(crate::specs::Steps::looked))]
fn looked(marks: &[u8], i: u32) -> bool
    ensures { result ≡ looked marks.now i }
{
    lent::at(marks, i as usize, 0) != program::PASSED
}

// Finding 13.
#[tactic(auto, unfolding(crate::specs::Steps::bad_address))]
pub fn bad_address(font: &Font, marks: &[u8], i: u32) -> bool
    ensures { result ≡ bad_address font.now.steps.now marks.now font.now.layout i }
{
    looked(marks, i)
        & (128 < tfm::byte_of(font.steps, i, 0))
        & (font.layout.nl as u32 <= program::address(font.steps, i))
}

// A kern or a ligature that is not passed through.
#[tactic(auto, unfolding(crate::specs::Steps::is_step))]
fn is_step(font: &Font, marks: &[u8], i: u32) -> bool
    ensures { result ≡ is_step font.now.steps.now marks.now i }
{
    looked(marks, i) & (tfm::byte_of(font.steps, i, 0) <= 128)
}

#[tactic(auto, unfolding(crate::specs::Steps::is_ligature))]
fn is_ligature(font: &Font, marks: &[u8], i: u32) -> bool
    ensures { result ≡ is_ligature font.now.steps.now marks.now i }
{
    is_step(font, marks, i) & (tfm::byte_of(font.steps, i, 2) < 128)
}

// Finding 14.
#[tactic(auto, unfolding(crate::specs::Steps::step_for_missing))]
pub fn step_for_missing(font: &Font, marks: &[u8], i: u32) -> bool
    ensures { result ≡ step_for_missing font.now.infos.now font.now.steps.now marks.now font.now.layout i }
{
    let right = tfm::byte_of(font.steps, i, 1);
    is_step(font, marks, i)
        & !tfm::exists(font, right as u32)
        & (program::boundary_char(font.steps) != Some(right))
}

// Finding 15.
#[tactic(auto, unfolding(crate::specs::Steps::ligature_to_missing))]
pub fn ligature_to_missing(font: &Font, marks: &[u8], i: u32) -> bool
    ensures { result ≡ ligature_to_missing font.now.infos.now font.now.steps.now marks.now font.now.layout i }
{
    is_ligature(font, marks, i) & !tfm::exists(font, tfm::byte_of(font.steps, i, 3) as u32)
}

// Finding 16.
#[tactic(auto, unfolding(crate::specs::Steps::bad_kern))]
pub fn bad_kern(font: &Font, marks: &[u8], i: u32) -> bool
    ensures { result ≡ bad_kern font.now.steps.now marks.now font.now.layout i }
{
    is_step(font, marks, i)
        & (128 <= tfm::byte_of(font.steps, i, 2))
        & (font.layout.nk as u32 <= program::address(font.steps, i).saturating_sub(32768))
}

// Finding 17.
#[tactic(auto, unfolding(crate::specs::Steps::odd_code))]
pub fn odd_code(font: &Font, marks: &[u8], i: u32) -> bool
    ensures { result ≡ odd_code font.now.steps.now marks.now i }
{
    let code = tfm::byte_of(font.steps, i, 2);
    is_ligature(font, marks, i) & ((code == 4) | ((7 < code) & (code != 11)))
}
