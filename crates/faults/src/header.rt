// Findings 2 to 8: the header, the parameters and the first entries.
// A string is a number, 0 the coding scheme and 1 the family, and no enum: a finding says that number, and the definitions of specs/ speak of it.
ghost use Rattle.std.specs.Prelude.{◌≡◌, true, ◌<◌};
ghost use Rattle.lent.specs.Fold.{iterate};
ghost use Rattle.faults.specs.Header.{string_start, string_room, is_read, string_byte, string_too_long, string_length, in_string, parenthesis, nonstandard, bad_design_size, upper, same_letter, scheme_starts, math_symbols, math_extension, unusual_count, bad_parameter, not_zero};

use tfm::{Font, Layout};

#[tactic(auto, unfolding(crate::specs::Header::string_start))]
fn string_start(string: u32) -> u32
    ensures { result ≡ string_start string }
{
    if string == 0 { 8 } else { 48 }
}

#[tactic(auto, unfolding(crate::specs::Header::string_room))]
fn string_room(string: u32) -> u32
    ensures { result ≡ string_room string }
{
    if string == 0 { 40 } else { 20 }
}

// Strings are read if lh is at least 12, and 17.
#[tactic(auto, unfolding(crate::specs::Header::is_read))]
fn is_read(layout: Layout, string: u32) -> bool
    ensures { result ≡ is_read layout string }
{
    let least = if string == 0 { 12 } else { 17 };
    least <= layout.lh
}

// Byte n of a string; the length byte is n = 0.
#[tactic(auto, unfolding(crate::specs::Header::string_byte))]
pub fn string_byte(font: &Font, string: u32, n: u32) -> u8
    ensures { result ≡ string_byte font.now.header.now string n }
{
    lent::at(
        font.header,
        (string_start(string) as usize) + (n as usize),
        0,
    )
}

// Finding 2.
#[tactic(auto, unfolding(crate::specs::Header::string_too_long))]
pub fn string_too_long(font: &Font, string: u32) -> bool
    ensures { result ≡ string_too_long font.now.header.now font.now.layout string }
{
    is_read(font.layout, string) & (string_room(string) <= string_byte(font, string, 0) as u32)
}

// The length of a string, with finding 2 mended.
#[tactic(auto, unfolding(crate::specs::Header::string_length))]
fn string_length(font: &Font, string: u32) -> u32
    ensures { result ≡ string_length font.now.header.now font.now.layout string }
{
    if string_too_long(font, string) {
        1
    } else {
        string_byte(font, string, 0) as u32
    }
}

// Byte n is one of the string's characters.
#[tactic(auto, unfolding(crate::specs::Header::in_string))]
fn in_string(font: &Font, string: u32, n: u32) -> bool
    ensures { result ≡ in_string font.now.header.now font.now.layout string n }
{
    is_read(font.layout, string) & (1 <= n) & (n <= string_length(font, string))
}

// Finding 3.
#[tactic(auto, unfolding(crate::specs::Header::parenthesis))]
pub fn parenthesis(font: &Font, string: u32, n: u32) -> bool
    ensures { result ≡ parenthesis font.now.header.now font.now.layout string n }
{
    let b = string_byte(font, string, n);
    in_string(font, string, n) & ((b == b'(') | (b == b')'))
}

// Finding 4.
#[tactic(auto, unfolding(crate::specs::Header::nonstandard))]
pub fn nonstandard(font: &Font, string: u32, n: u32) -> bool
    ensures { result ≡ nonstandard font.now.header.now font.now.layout string n }
{
    let b = string_byte(font, string, n);
    in_string(font, string, n) & ((b < b' ') | (b'~' < b))
}

// Finding 5.
#[tactic(auto, unfolding(crate::specs::Header::bad_design_size))]
pub fn bad_design_size(font: &Font) -> bool
    ensures { result ≡ bad_design_size font.now.header.now }
{
    let first = tfm::byte_of(font.header, 1, 0);
    (127 < first) | ((first == 0) & (tfm::byte_of(font.header, 1, 1) < 16))
}

// The letter in upper case: the library's method, with a clause in the words of the specs.
#[tactic(auto, unfolding(crate::specs::Header::upper))]
pub fn upper(b: u8) -> u8
    ensures { result ≡ upper b }
{
    b.to_ascii_uppercase()
}

// By number, as a letter past an end counts as 0.
fn same_letters(font: &Font, text: &[u8]) -> bool
    ensures { result ≡ iterate (same_letter font.now.header.now text.now) true 11 }
{
    (0..11).all(|i| upper(string_byte(font, 0, i + 1)) == lent::at(text, i as usize, 0))
}

// The scheme starts with the 11 letters of the text.
#[tactic(auto, unfolding(crate::specs::Header::scheme_starts))]
fn scheme_starts(font: &Font, text: &[u8]) -> bool
    ensures { result ≡ scheme_starts font.now.header.now font.now.layout text.now }
{
    is_read(font.layout, 0) & (11 <= string_length(font, 0)) & same_letters(font, text)
}

// The scheme is that of a math symbols font.
#[tactic(auto, unfolding(crate::specs::Header::math_symbols))]
pub fn math_symbols(font: &Font) -> bool
    ensures { result ≡ math_symbols font.now.header.now font.now.layout }
{
    scheme_starts(font, b"TEX MATH SY")
}

// The scheme is that of a math extension font.
#[tactic(auto, unfolding(crate::specs::Header::math_extension))]
pub fn math_extension(font: &Font) -> bool
    ensures { result ≡ math_extension font.now.header.now font.now.layout }
{
    scheme_starts(font, b"TEX MATH EX")
}

// Finding 6.
#[tactic(auto, unfolding(crate::specs::Header::unusual_count))]
pub fn unusual_count(font: &Font) -> bool
    ensures { result ≡ unusual_count font.now.header.now font.now.layout }
{
    (math_symbols(font) & (font.layout.np != 22)) | (math_extension(font) & (font.layout.np != 13))
}

// Finding 7.
#[tactic(auto, unfolding(crate::specs::Header::bad_parameter))]
pub fn bad_parameter(font: &Font, i: u32) -> bool
    ensures { result ≡ bad_parameter font.now.params.now i }
{
    (2 <= i) & tfm::too_big(font.params, i.saturating_sub(1))
}

// Finding 8.
#[tactic(auto, unfolding(crate::specs::Header::not_zero))]
pub fn not_zero(table: &[u8]) -> bool
    ensures { result ≡ not_zero table.now }
{
    tfm::word_of(table, 0) != 0
}
