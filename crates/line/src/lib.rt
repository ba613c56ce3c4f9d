// Not Display: `line` and `refused` cannot fail and promise each byte of the lent buffer, where a Display may fail.
// The line that a program prints. The longest one, with four numbers of five digits and `perfect no`, has 63 bytes.
#![tactic(auto)]

ghost use Rattle.std.specs.Prelude.{◌++◌, ◌+◌, ◌≤◌, length};
ghost use Rattle.line.specs.Line.{digit_count, decimal, numbers_of, offset_text, refused_line, line_of, Put, Printed};

use marker::marks::Counts;
use papers::layout::Refusal;

// Puts a text into out from `at` on, and answers where it ends.
fn put(text: &[u8], at: usize, out: &mut [u8]) -> usize
    requires { at + length text.now ≤ length out.old }
    ensures { Put text.now at out.old result out.new }
{
    let end = at + text.len();
    out[at..end].copy_from_slice(text);
    end
}

// Puts a number into out from `at` on, without zeros in front, and answers where it ends.
fn put_number(n: u16, at: usize, out: &mut [u8; 64]) -> usize
    requires { at + digit_count n ≤ 64 }
    ensures { Put (decimal n) at out.old result out.new }
{
    let last = [b'0' + (n % 10) as u8];
    if n < 10 {
        return put(&last, at, out);
    }
    let end = put_number(n / 10, at, out);
    put(&last, end, out)
}

// Puts a number behind its name into out from `at` on, and answers where it ends.
fn put_named(name: &[u8], n: u16, at: usize, out: &mut [u8; 64]) -> usize
    requires { at + length name.now + 5 ≤ 64 }
    ensures upper_bound { result ≤ at + length name.now + 5 }
    ensures put { Put (name.now ++ decimal n) at out.old result out.new }
{
    let start = put(name, at, out);
    put_number(n, start, out)
}

// Puts the offset of a refusal, if it has one, behind a space into out from `at` on, and answers where it ends.
fn put_offset(r: Refusal, at: usize, out: &mut [u8; 64]) -> usize
    requires { at + 6 ≤ 64 }
    ensures upper_bound { result ≤ at + 6 }
    ensures put { Put (offset_text r) at out.old result out.new }
{
    match r {
        Refusal::Badpaper(offset) => put_named(b" ", offset, at, out),
        Refusal::Badsheet(offset) => put_named(b" ", offset, at, out),
        Refusal::Blank => put(b"", at, out),
        Refusal::Noroom => put(b"", at, out),
    }
}

// Puts the line of a refusal at the start of out, and answers its length.
pub fn refused(r: Refusal, out: &mut [u8; 64]) -> usize
    ensures { Printed (refused_line r) out.old result out.new }
{
    let at = put_named(b"refused ", r.number() as u16, 0, out);
    let end = put_offset(r, at, out);
    put(b"\n", end, out)
}

// Puts the four numbers of a mark at the start of out, and answers where they end.
fn put_numbers(total: u16, right: u16, missing: u16, surplus: u16, out: &mut [u8; 64]) -> usize
    ensures upper_bound { result ≤ 51 }
    ensures put { Put (numbers_of total right missing surplus) 0 out.old result out.new }
{
    let a = put_named(b"total ", total, 0, out);
    let b = put_named(b" right ", right, a, out);
    let c = put_named(b" missing ", missing, b, out);
    put_named(b" surplus ", surplus, c, out)
}

// Puts the line of a mark or a refusal at the start of out, and answers its length.
pub fn line(m: Result<Counts, Refusal>, out: &mut [u8; 64]) -> usize
    ensures { Printed (line_of m) out.old result out.new }
{
    match m {
        Err(r) => refused(r, out),
        Ok(c) => {
            let at = put_numbers(c.total, c.right, c.missing, c.surplus, out);
            if marker::perfect(m) {
                put(b" perfect yes\n", at, out)
            } else {
                put(b" perfect no\n", at, out)
            }
        }
    }
}
