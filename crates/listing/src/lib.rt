// The listing of a file: the property list of its mended copy, on lent buffers.
#![tactic(auto)]

mod answer;
mod characters;

ghost use Rattle.std.specs.Prelude.{◌≡◌, cond, ltb};
ghost use Rattle.tfm.specs.Refusal.{number};
ghost use Rattle.tfm.specs.Sizes.{layout_of};
ghost use Rattle.items.specs.Items.{◌▸◌, Printed};
ghost use Rattle.judge.specs.Judge.{verdict_in, zeros};
ghost use Rattle.listing.specs.Listing.{closing_comment, items_of, says_of, ListedAs};
ghost use Rattle.listing.specs.Inside.{items_in};
ghost use Rattle.listing.specs.Settings.{opening_of, characters_of, closing_of};

pub use answer::Listing;
use characters::Setting;
use header::Kind;
use judge::Verdict;
use lent::Pen;
use ligatures::Program;
use tfm::{Font, Layout, Refusal};

// The header, the parameters, the boundary character and the ligature table.
fn put_opening(pen: &mut Pen, font: &Font, marks: &[u8], kind: Kind, starts: &[u32])
    ensures { Printed pen.old 0 (opening_of font.now marks.now kind starts.now) pen.new }
{
    let letters = header::letters_in(kind);
    let program = Program {
        letters,
        font,
        marks,
    };
    header::put_header(pen, font);
    header::parameters::put_fontdimen(pen, kind, font);
    ligatures::put_boundary(pen, letters, font);
    ligatures::put_ligtable(pen, &program, starts);
}

fn put_closing_comment(pen: &mut Pen, mended: bool)
    ensures { Printed pen.old 0 (closing_comment mended) pen.new }
{
    if mended {
        items::put_leaf(
            pen,
            0,
            b"COMMENT THE TFM FILE WAS BAD, SO THE DATA HAS BEEN CHANGED!",
            &[],
        );
    }
}

// The characters, and whether the file was mended.
fn put_characters_then(pen: &mut Pen, setting: &Setting, mended: bool)
    ensures { Printed pen.old 0 (characters_of setting.now ▸ closing_comment mended) pen.new }
{
    setting.put_characters(pen);
    put_closing_comment(pen, mended);
}

// What stands after the ligature table, by the verdict.
fn put_closing(pen: &mut Pen, setting: &Setting, verdict: Verdict)
    ensures { Printed pen.old 0 (closing_of setting.now (verdict_in verdict)) pen.new }
{
    match verdict {
        Verdict::Clean => put_characters_then(pen, setting, false),
        Verdict::Mended => put_characters_then(pen, setting, true),
        Verdict::Looping => {
            items::put_leaf(pen, 0, b"INFINITE LIGATURE LOOP MUST BE BROKEN!", &[])
        }
    }
}

// The property list of the 4·lf bytes that are the copy, whose tables are cut once.
fn put_copy(pen: &mut Pen, copy: &[u8], layout: Layout, marks: &[u8], verdict: Verdict)
    ensures { Printed pen.old 0 (items_of copy.now layout marks.now (verdict_in verdict)) pen.new }
{
    let font = tfm::tables_of(copy, layout);
    let kind = header::kind_of(&font);
    let starts = ligatures::starts_of(&font);
    let setting = Setting {
        letters: header::letters_in(kind),
        font: &font,
        starts: &starts,
    };
    put_opening(pen, &font, marks, kind, &starts);
    put_closing(pen, &setting, verdict);
}

// Not in line in `listing`: its flags and marks would lie on the stack beside those of the verdict.
#[inline(never)]
fn put_listing(pen: &mut Pen, file: &[u8], layout: Layout, copy: &[u8], verdict: Verdict)
    ensures { Printed pen.old 0 (items_in file.now layout copy.now (verdict_in verdict)) pen.new }
{
    let font = tfm::tables_of(file, layout);
    let bytes = lent::part(copy, 0, 4 * (layout.lf as usize));
    let mut marks = [0u8; 32768];
    program::mark_all(&font, &mut marks);
    put_copy(pen, bytes, layout, &marks, verdict);
}

// 14 and 15 leave the listing's buffer all zeros too.
fn refuse(refusal: Refusal, out: &mut [u8])
    ensures { out.new ≡ cond (ltb (number refusal) 14) out.old (zeros out.old) }
{
    if 14 <= refusal.number() {
        out.fill(0);
    }
}

// What is lent comes one by one, as C lends it and README names it.
pub fn listing(
    file: &[u8],
    copy: &mut [u8],
    findings: &mut [u8],
    pairs: &mut [u32],
    out: &mut [u8],
) -> Result<Listing, Refusal>
    ensures { ListedAs file.now (layout_of file.now) copy.old findings.old pairs.old out.old (says_of result) copy.new findings.new pairs.new out.new }
{
    let judgement = match judge::verdict(file, copy, findings, pairs) {
        Ok(judgement) => judgement,
        Err(refusal) => {
            refuse(refusal, out);
            return Err(refusal);
        }
    };
    let mut pen = Pen::new(out);
    put_listing(
        &mut pen,
        file,
        tfm::read_layout(file),
        copy,
        judgement.verdict,
    );
    let text = pen.end();
    if pen.has_overflowed() {
        copy.fill(0);
        findings.fill(0);
        out.fill(0);
        return Err(Refusal::ListingDoesNotFit);
    }
    Ok(Listing {
        verdict: judgement.verdict,
        findings: judgement.findings,
        text,
    })
}
