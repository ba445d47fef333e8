// Texts that are placed in an array from its end, each in front of what stands there already. So a line is made
// without a copy of any digit, and written by one call.
ghost use Rattle.std.specs.Prelude.{◌≡◌, ◌+◌, ◌*◌, ◌%◌, ◌≤◌, ◌<◌, ◌++◌, [], Some, length, drop};
ghost use Rattle.std.specs.List.{flat_map};
ghost use Rattle.std.specs.Fmt.{signed_decimal};
ghost use Rattle.plinq_ops.specs.Batches.{full_batches};
ghost use Rattle.plinq_lines.specs.AnswerText.{further_number, single_line, batch_line};

use itoa::write_digits;

/// Places a number's decimal in front of `end`, and returns where it begins.
#[inline]
pub(crate) fn place_number(x: i64, text: &mut [u8], end: usize) -> usize
    requires room { 20 ≤ end }
    requires within { end ≤ length text.old }
    ensures start { result ≤ end }
    ensures short { end ≤ result + 20 }
    ensures placed { drop result text.new ≡ signed_decimal x ++ drop end text.old }
{
    let start = write_digits(x.unsigned_abs(), text, end);
    if x >= 0 {
        return start;
    }
    text[start - 1] = b'-';
    start - 1
}

#[inline]
fn place_further_number(x: i64, text: &mut [u8], end: usize) -> usize
    requires room { 21 ≤ end }
    requires within { end ≤ length text.old }
    ensures start { result ≤ end }
    ensures short { end ≤ result + 21 }
    ensures placed { drop result text.new ≡ further_number x ++ drop end text.old }
{
    let start = place_number(x, text, end);
    text[start - 1] = b' ';
    start - 1
}

/// Places numbers, each after a space.
#[inline]
pub(crate) fn place_further_numbers(numbers: &[i64], text: &mut [u8], end: usize) -> usize
    requires room { 21 * length numbers.now ≤ end }
    requires within { end ≤ length text.old }
    ensures start { result ≤ end }
    ensures short { end ≤ result + 21 * length numbers.now }
    ensures placed { drop result text.new ≡ flat_map further_number numbers.now ++ drop end text.old }
{
    let mut rest = numbers;
    let mut at = end;
    while let Some((x, before)) = rest.split_last() {
        at = place_further_number(*x, text, at);
        rest = before;
    }
    at
}

/// Places numbers, each as a line of its own.
#[inline]
pub(crate) fn place_single_lines(numbers: &[i64], text: &mut [u8], end: usize) -> usize
    requires room { 21 * length numbers.now ≤ end }
    requires within { end ≤ length text.old }
    ensures start { result ≤ end }
    ensures same { length text.new ≡ length text.old }
    ensures placed { drop result text.new ≡ flat_map single_line numbers.now ++ drop end text.old }
{
    let mut rest = numbers;
    let mut at = end;
    while let Some((x, before)) = rest.split_last() {
        at = place_single_line(*x, text, at);
        rest = before;
    }
    at
}

/// Places a number as a line of its own.
#[inline]
fn place_single_line(x: i64, text: &mut [u8], end: usize) -> usize
    requires room { 21 ≤ end }
    requires within { end ≤ length text.old }
    ensures start { result ≤ end }
    ensures short { end ≤ result + 21 }
    ensures placed { drop result text.new ≡ single_line x ++ drop end text.old }
{
    text[end - 1] = b'\n';
    place_number(x, text, end - 1)
}

/// Places the lines of whole batches of one size.
#[inline]
pub(crate) fn place_lines(size: usize, numbers: &[i64], text: &mut [u8], end: usize) -> usize
    requires some { 0 < size }
    requires whole { length numbers.now % size ≡ 0 }
    requires room { 22 * length numbers.now ≤ end }
    requires within { end ≤ length text.old }
    ensures start { result ≤ end }
    ensures same { length text.new ≡ length text.old }
    ensures placed { drop result text.new ≡ flat_map batch_line (full_batches (Some size) [] numbers.now) ++ drop end text.old }
{
    let mut rest = numbers;
    let mut at = end;
    while rest.len() >= size {
        let (before, batch) = rest.split_at(rest.len() - size);
        at = place_line(batch, text, at);
        rest = before;
    }
    at
}

/// Places the line of a batch.
#[inline]
pub(crate) fn place_line(batch: &[i64], text: &mut [u8], end: usize) -> usize
    requires room { 21 * length batch.now + 1 ≤ end }
    requires within { end ≤ length text.old }
    ensures start { result ≤ end }
    ensures short { end ≤ result + 21 * length batch.now + 1 }
    ensures same { length text.new ≡ length text.old }
    ensures placed { drop result text.new ≡ batch_line batch.now ++ drop end text.old }
{
    text[end - 1] = b'\n';
    let Some((first, further)) = batch.split_first() else {
        return end - 1;
    };
    let following = place_further_numbers(further, text, end - 1);
    place_number(*first, text, following)
}
