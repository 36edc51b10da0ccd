// Numbers and names in columns, stored from an offset on. Each `put_` returns the offset past what it stored.
ghost use Rattle.std.specs.Prelude.{◌≡◌, map, ◌+◌, ◌^◌, ◌≤◌, ◌<◌, length, take, replicate};
ghost use Rattle.common.specs.Stores.{Stored};
ghost use Rattle.calls.specs.Listing.{shown as shown_byte, column, name_column};
ghost use Rattle.calls.specs.Sheet.{right_justified};
ghost use Rattle.show_columns.specs.Steps.{digit_of};

use common::widths::wide;
use utf8::prefix::first_characters;

// The byte in front of the digits that are stored: the last digit of the rest of the number, or a space.
fn digit(rest: u64) -> u8
    ensures { result ≡ digit_of rest }
{
    if rest == 0 {
        return 32;
    }
    (48 + rest % 10) as u8
}

// A number of at most ten digits, right-justified in ten columns: its last digit, then the bytes in front of it.
pub fn put_number(out: &mut [u8], at: usize, n: u64) -> usize
    requires { (n < 10000000000) × (at + 10 ≤ length out.old) }
    ensures { Stored (column n) at out.old result out.new }
{
    out[at + 9] = (48 + n % 10) as u8;
    let mut rest = n / 10;
    for i in (0..9).rev() {
        out[at + i] = digit(rest);
        rest /= 10;
    }
    at + 10
}

// A byte as it prints. What prints as ? has one byte, and no byte of a longer character is below 128: so a name is shown byte by byte.
fn shown(b: u8) -> u8
    ensures { result ≡ shown_byte b }
{
    if b < 32 || b == 127 {
        return 63;
    }
    b
}

// The first `count` bytes as they print.
fn put_shown(out: &mut [u8], at: usize, s: &[u8], count: usize) -> usize
    requires { (count ≤ length s.now) × (at + count ≤ length out.old) }
    ensures { Stored (map shown_byte (take count s.now)) at out.old result out.new }
{
    for (i, b) in s[..count].iter().enumerate() {
        out[at + i] = shown(*b);
    }
    at + count
}

// Spaces.
pub fn put_spaces(out: &mut [u8], at: usize, count: usize) -> usize
    requires { at + count ≤ length out.old }
    ensures { Stored (replicate count 32) at out.old result out.new }
{
    out[at..at + count].fill(32);
    at + count
}

// A number below 100, right-justified in four columns.
pub fn put_hits(out: &mut [u8], at: usize, n: u32) -> usize
    requires { (n < 100) × (at + 4 ≤ length out.old) }
    ensures { Stored (right_justified 4 n) at out.old result out.new }
{
    let tens = put_spaces(out, at, 2);
    out[tens] = digit(wide(n / 10));
    out[tens + 1] = (48 + n % 10) as u8;
    tens + 2
}

// How many bytes a name's column has.
pub fn name_len(name: &[u8], width: usize) -> usize
    requires { width < 2 ^ 32 }
    ensures { result ≡ length (name_column width name.now) }
{
    let first = first_characters(name, width);
    first.octets + (width - first.characters)
}

// A name, cut or padded with spaces to `width` characters.
pub fn put_name(out: &mut [u8], at: usize, name: &[u8], width: usize) -> usize
    requires { at + length (name_column width name.now) ≤ length out.old }
    ensures { Stored (name_column width name.now) at out.old result out.new }
{
    let first = first_characters(name, width);
    let past = put_shown(out, at, name, first.octets);
    put_spaces(out, past, width - first.characters)
}
