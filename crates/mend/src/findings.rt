// The findings of a file, as house records in ascending order of tag, first, second number.
ghost use Rattle.lent.specs.Pens.{Written};
ghost use Rattle.mend.specs.Findings.{half, record_of, found_at, found_on, found_tags};

use crate::holds::{Looked, firsts, lowest, seconds};
use lent::Pen;
use tfm::Font;

// The last two bytes of a number.
fn put_half(pen: &mut Pen, n: u32)
    ensures { Written pen.old (half n) pen.new }
{
    pen.put_bytes(&((n % 65536) as u16).to_be_bytes());
}

// A house record: the tag, the length 4, two numbers.
pub fn put_record(pen: &mut Pen, tag: u32, first: u32, second: u32)
    ensures { Written pen.old (record_of tag first second) pen.new }
{
    pen.put((tag % 256) as u8);
    put_half(pen, 4);
    put_half(pen, first);
    put_half(pen, second);
}

// The findings of a tag with one first number.
fn put_at(pen: &mut Pen, looked: &Looked, tag: u32, first: u32)
    ensures { Written pen.old
        (found_at looked.now.file.now looked.now.font.infos.now looked.now.font.steps.now looked.now.marks.now looked.now.font.layout tag first) pen.new }
{
    for second in 0..seconds(looked.font.layout, tag, first) {
        if looked.holds(tag, first, second) {
            put_record(pen, tag, first, second);
        }
    }
}

// The findings of a tag.
fn put_on(pen: &mut Pen, looked: &Looked, tag: u32)
    ensures { Written pen.old
        (found_on looked.now.file.now looked.now.font.infos.now looked.now.font.steps.now looked.now.marks.now looked.now.font.layout tag) pen.new }
{
    let layout = looked.font.layout;
    let low = lowest(layout, tag) as u32;
    for i in 0..firsts(layout, tag) {
        put_at(pen, looked, tag, low + i);
    }
}

// The findings of n tags. The font's tables char_info and lig_kern are what is looked at there, also where they are not the file's.
pub fn put_findings(pen: &mut Pen, file: &[u8], font: &Font, marks: &[u8], from: u8, n: u8)
    ensures { Written pen.old (found_tags file.now font.now.infos.now font.now.steps.now marks.now font.now.layout from n) pen.new }
{
    let looked = Looked::new(file, font, marks);
    for i in 0..n {
        put_on(pen, &looked, (from as u32) + (i as u32));
    }
}
