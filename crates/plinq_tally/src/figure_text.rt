ghost use Rattle.std.specs.Prelude.{◌≡◌, ◌+◌, ◌++◌, ◌<◌, ◌≤◌, ◌∷◌, [], IfOk, decimal, drop, length, take};
ghost use Rattle.plinq_tally.specs.FigureText.{figure_line, fraction_text, key_text, number_text, size_text, told_number, trimmed};

use crate::figure::Figure;
use itoa::Buffer;
use std::alloc::AllocError;

/// What is told of numbers.
#[derive(Clone, Copy, Debug, PartialEq, Eq)]
pub enum Told {
    /// Their sum (.NET's `Sum`).
    Sum,
    /// The least (.NET's `Min`).
    Least,
    /// The greatest (.NET's `Max`).
    Greatest,
    /// Their mean, cut after nine digits (.NET's `Average`).
    Mean,
}

/// Appends the line of a key.
pub(crate) fn put_figure(
    told: Told,
    key: &[u8],
    figure: Figure,
    out: &mut Vec<u8>,
) -> Result<(), AllocError>
    ensures { IfOk result (λ _. out.new.items ≡ out.old.items ++ figure_line told (key.now, figure)) }
{
    put_number(told_number(told, figure), out)?;
    put_key(key, out)
}

fn told_number(told: Told, figure: Figure) -> i128
    ensures { result ≡ told_number told figure }
{
    match told {
        Told::Sum => figure.sum,
        Told::Least => figure.least,
        Told::Greatest => figure.greatest,
        Told::Mean if figure.count == 0 => 0,
        Told::Mean => figure.sum / i128::from(figure.count),
    }
}

fn put_key(key: &[u8], out: &mut Vec<u8>) -> Result<(), AllocError>
    ensures { IfOk result (λ _. out.new.items ≡ out.old.items ++ key_text key.now) }
{
    if !key.is_empty() {
        out.push(b'\t')?;
        out.extend_from_slice(key)?;
    }
    out.push(b'\n')?;
    Ok(())
}

/// Appends a number of so many billionths.
fn put_number(billionths: i128, out: &mut Vec<u8>) -> Result<(), AllocError>
    ensures { IfOk result (λ _. out.new.items ≡ out.old.items ++ number_text billionths) }
{
    if billionths < 0 {
        out.push(b'-')?;
    }
    put_size(billionths.unsigned_abs(), out)
}

fn put_size(billionths: u128, out: &mut Vec<u8>) -> Result<(), AllocError>
    ensures { IfOk result (λ _. out.new.items ≡ out.old.items ++ size_text billionths) }
{
    let mut digits = Buffer::new();
    out.extend_from_slice(digits.format(billionths / 1_000_000_000).as_bytes())?;
    put_fraction((billionths % 1_000_000_000) as u64, out)
}

/// Appends a point and so many billionths, if there are any.
fn put_fraction(part: u64, out: &mut Vec<u8>) -> Result<(), AllocError>
    requires { part < 1000000000 }
    ensures { IfOk result (λ _. out.new.items ≡ out.old.items ++ fraction_text part) }
{
    if part == 0 {
        return Ok(());
    }
    let mut digits = Buffer::new();
    out.push(b'.')?;
    let padded = digits.format(1_000_000_000 + part).as_bytes();
    match padded.split_first() {
        Some((_, places)) => out.extend_from_slice(trimmed(places)),
        None => Ok(()),
    }
}

/// Digits without the zeros at their end.
fn trimmed(digits: &[u8]) -> &[u8]
    ensures { result.now ≡ trimmed digits.now }
{
    let mut rest = digits;
    while let Some((last, before)) = rest.split_last() {
        if *last != b'0' {
            return rest;
        }
        rest = before;
    }
    rest
}
