// The ligature program of a font, printed as 003 §66 to §77 do, and the part that a character's comment shows (§83).
#![tactic(auto)]

mod labels;
mod steps;

ghost use Rattle.std.specs.Prelude.{◌≡◌, ◌-◌, ◌<◌};
ghost use Rattle.items.specs.Items.{Printed};
ghost use Rattle.ligatures.specs.Ligatures.{boundary_item, run_end, piece_end, following};
ghost use Rattle.ligatures.specs.Programs.{unused_at_of, unused_steps_of, unused_of, accessible_of, piece_of, pieces_of, table_of, ligtable_of, program_in, comment_in};

use items::Word;
use labels::Labels;
pub use labels::starts_of;
use lent::Pen;
use tfm::Font;

// What a program is printed from: whether characters stand by their letters, the font, and the marks of its steps.
#[derive(Clone, Copy)]
pub struct Program<'a> {
    pub letters: bool,
    pub font: &'a Font<'a>,
    pub marks: &'a [u8],
}

// The right boundary character. Letters and font come one by one, since they stand in a `Program` here and in a `Setting` in listing. (That the steps are bytes tells none, which the clause of boundary_char gives as 256, from a character.)
pub fn put_boundary(pen: &mut Pen, letters: bool, font: &Font)
    ensures { Printed pen.old 0 (boundary_item letters font.now.steps.now) pen.new }
{
    lent::holds_bytes(font.steps);
    if let Some(c) = program::boundary_char(font.steps) {
        items::put_leaf(pen, 0, b"BOUNDARYCHAR", &[Word::Code(letters, c)]);
    }
}

// An accessible step, with its labels and what follows it.
fn put_accessible(pen: &mut Pen, program: &Program, labels: &Labels, i: u32)
    ensures { Printed pen.old 1 (accessible_of program.now labels.now.starts.now i) pen.new }
{
    labels.put(pen, program.letters, i);
    steps::put_step(pen, 1, program.letters, program.font, i);
    let skip = tfm::byte_of(program.font.steps, i, 0);
    steps::put_tail(pen, program.marks, i, skip);
}

// An unused step, unless it is passed through.
fn put_unused_step(pen: &mut Pen, program: &Program, i: u32)
    ensures { Printed pen.old 2 (unused_at_of program.now i) pen.new }
{
    if lent::at(program.marks, i as usize, 0) != program::PASSED {
        steps::put_step(pen, 2, program.letters, program.font, i);
    }
}

fn put_unused_steps(pen: &mut Pen, program: &Program, i: u32, end: u32)
    ensures { Printed pen.old 2 (unused_steps_of program.now i (end - i)) pen.new }
{
    for step in i..end {
        put_unused_step(pen, program, step);
    }
}

// The steps from i up to end, which are unused.
fn put_unused(pen: &mut Pen, program: &Program, i: u32, end: u32)
    ensures { Printed pen.old 1 (unused_of program.now i (end - i)) pen.new }
{
    items::open_group(
        pen,
        2,
        b"COMMENT THIS PART OF THE PROGRAM IS NEVER USED!",
        &[],
    );
    put_unused_steps(pen, program, i, end);
    items::put_close(pen, 1);
}

// What stands at step i, up to step end.
fn put_piece(pen: &mut Pen, program: &Program, labels: &Labels, i: u32, end: u32)
    ensures { Printed pen.old 1 (piece_of program.now labels.now.starts.now i end) pen.new }
{
    match lent::at(program.marks, i as usize, 0) {
        program::UNREACHABLE => put_unused(pen, program, i, end),
        program::PASSED => {}
        _ => put_accessible(pen, program, labels, i),
    }
}

// The first accessible step from i on, or nl, where the next piece then starts.
fn run_end(marks: &[u8], nl: u32, i: u32) -> u32
    ensures { result ≡ run_end marks.now (nl - i) i }
{
    (i..nl)
        .find(|&step| lent::at(marks, step as usize, 0) == program::ACCESSIBLE)
        .unwrap_or(nl.max(i))
}

// Where a piece ends that starts at step i.
#[tactic(auto, unfolding(crate::specs::Ligatures::piece_end))]
fn piece_end(marks: &[u8], nl: u32, i: u32) -> u32
    requires { i < nl }
    ensures { result ≡ piece_end marks.now nl i }
{
    if lent::at(marks, i as usize, 0) == program::UNREACHABLE {
        run_end(marks, nl, i + 1)
    } else {
        i + 1
    }
}

// The steps, piece by piece: where the next piece starts is known only at this one, so the step is counted by hand.
fn put_pieces(pen: &mut Pen, program: &Program, labels: &Labels)
    ensures { Printed pen.old 1 (pieces_of program.now labels.now.starts.now) pen.new }
{
    let nl = program.font.layout.nl as u32;
    let mut i = 0;
    while i < nl {
        let end = piece_end(program.marks, nl, i);
        put_piece(pen, program, labels, i, end);
        i = end;
    }
}

fn put_table(pen: &mut Pen, program: &Program, starts: &[u32])
    ensures { Printed pen.old 0 (table_of program.now starts.now) pen.new }
{
    let labels = Labels {
        starts,
        carries: &labels::carried(starts),
    };
    items::open_group(pen, 1, b"LIGTABLE", &[]);
    put_pieces(pen, program, &labels);
    items::put_close(pen, 0);
}

// The table of the program, where there is one, with the labels at the starts.
pub fn put_ligtable(pen: &mut Pen, program: &Program, starts: &[u32])
    ensures { Printed pen.old 0 (ligtable_of program.now starts.now) pen.new }
{
    if program.font.layout.nl != 0 {
        put_table(pen, program, starts);
    }
}

// The step after step i, or nl.
#[tactic(auto, unfolding(crate::specs::Ligatures::following, program::specs::Steps::next_of))]
fn following(font: &Font, i: u16) -> u32
    ensures { result ≡ following font.now.steps.now font.now.layout.nl i }
{
    if 128 <= tfm::byte_of(font.steps, i as u32, 0) {
        font.layout.nl as u32
    } else {
        program::next_step(font.steps, i as u32) as u32
    }
}

// The steps of a program from step i on, until the text no longer fits: each says where the next is, so the step is counted by hand.
fn put_program(pen: &mut Pen, letters: bool, font: &Font, i: u32)
    ensures { Printed pen.old 2 (program_in letters font.now i) pen.new }
{
    let mut i = i;
    while i < font.layout.nl as u32 {
        if pen.has_overflowed() {
            return;
        }
        steps::put_step(pen, 2, letters, font, i);
        i = following(font, i as u16);
    }
}

// The program from step i on as a comment.
pub fn put_comment(pen: &mut Pen, letters: bool, font: &Font, i: u32)
    ensures { Printed pen.old 1 (comment_in letters font.now i) pen.new }
{
    items::open_group(pen, 2, b"COMMENT", &[]);
    put_program(pen, letters, font, i);
    items::put_close(pen, 1);
}
