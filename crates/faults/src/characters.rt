// Findings 19 to 23: recipes and characters.
ghost use Rattle.std.specs.Prelude.{◌≡◌};
ghost use Rattle.faults.specs.Cycle.{goes, reaches};
ghost use Rattle.faults.specs.Characters.{piece_missing, index_of, size_of, bad_index, link_missing, links, larger, ends_cycle, bad_recipe};

use tfm::{CharInfo, Font, Layout};

// Finding 19.
#[tactic(auto, unfolding(crate::specs::Characters::piece_missing))]
pub fn piece_missing(font: &Font, r: u32, n: u32) -> bool
    ensures { result ≡ piece_missing font.now.infos.now font.now.recipes.now font.now.layout r n }
{
    let piece = tfm::byte_of(font.recipes, r, n);
    ((piece != 0) | (n == 3)) & !tfm::exists(font, piece as u32)
}

// The character's index in a table: a number, and no enum, since finding 20 says it, and `bad_index` of specs/ speaks of it.
#[tactic(auto, unfolding(crate::specs::Characters::index_of))]
fn index_of(info: CharInfo, table: u32) -> u32
    ensures { result ≡ index_of info table }
{
    let indices = [
        info.width as u32,
        info.height as u32,
        info.depth as u32,
        info.italic as u32,
    ];
    lent::at(&indices, table as usize, 0)
}

// The words of that table.
#[tactic(auto, unfolding(crate::specs::Characters::size_of))]
fn size_of(layout: Layout, table: u32) -> u32
    ensures { result ≡ size_of layout table }
{
    let sizes = [
        layout.nw as u32,
        layout.nh as u32,
        layout.nd as u32,
        layout.ni as u32,
    ];
    lent::at(&sizes, table as usize, 0)
}

// Finding 20.
#[tactic(auto, unfolding(crate::specs::Characters::bad_index))]
pub fn bad_index(font: &Font, code: u32, table: u32) -> bool
    ensures { result ≡ bad_index font.now.infos.now font.now.layout code table }
{
    tfm::exists(font, code)
        & (size_of(font.layout, table) <= index_of(tfm::info_for(font, code), table))
}

// Finding 21.
#[tactic(auto, unfolding(crate::specs::Characters::link_missing))]
pub fn link_missing(font: &Font, code: u32) -> bool
    ensures { result ≡ link_missing font.now.infos.now font.now.layout code }
{
    let info = tfm::info_for(font, code);
    tfm::exists(font, code)
        & (info.tag == tfm::HAS_LARGER)
        & !tfm::exists(font, info.remainder as u32)
}

// A link among existing characters.
#[tactic(auto, unfolding(crate::specs::Characters::links))]
fn links(font: &Font, code: u32) -> bool
    ensures { result ≡ links font.now.infos.now font.now.layout code }
{
    let info = tfm::info_for(font, code);
    tfm::exists(font, code)
        & (info.tag == tfm::HAS_LARGER)
        & tfm::exists(font, info.remainder as u32)
}

// Where a link leads.
#[tactic(auto, unfolding(crate::specs::Characters::larger))]
fn larger(font: &Font, code: u32) -> u32
    ensures { result ≡ larger font.now.infos.now font.now.layout code }
{
    tfm::info_for(font, code).remainder as u32
}

// The walk to the top goes on from r.
fn goes(font: &Font, top: u32, r: u32) -> bool
    ensures { result ≡ goes (links font.now.infos.now font.now.layout) top r }
{
    (r < top) & links(font, r)
}

// At most 256 links lead from a code to the top, through codes below it.
#[tactic(auto, using(crate::proofs::Walk::stops, crate::proofs::Walk::goes_on, crate::proofs::Walk::ends))]
fn reaches(font: &Font, top: u32, from: u32) -> bool
    ensures { result ≡ reaches (links font.now.infos.now font.now.layout) (larger font.now.infos.now font.now.layout) top 256 from }
{
    let mut r = from;
    for _ in 0..256u32 {
        if !goes(font, top, r) {
            return r == top;
        }
        r = larger(font, r);
    }
    r == top
}

// Finding 22.
#[tactic(auto, unfolding(crate::specs::Characters::ends_cycle))]
pub fn ends_cycle(font: &Font, code: u32) -> bool
    ensures { result ≡ ends_cycle font.now.infos.now font.now.layout code }
{
    links(font, code) & reaches(font, code, larger(font, code))
}

// Finding 23.
#[tactic(auto, unfolding(crate::specs::Characters::bad_recipe))]
pub fn bad_recipe(font: &Font, code: u32) -> bool
    ensures { result ≡ bad_recipe font.now.infos.now font.now.layout code }
{
    let info = tfm::info_for(font, code);
    tfm::exists(font, code)
        & (info.tag == tfm::HAS_RECIPE)
        & (font.layout.ne as u32 <= info.remainder as u32)
}
