ghost use Rattle.std.specs.Prelude.{◌≡◌, ◌≤◌, ◌<◌, ◌^◌, ◌+◌, IfOk, OnOk, IfSome, IfErr, IsErrOf, IsOkAnd, vec_len, length, take};
ghost use Rattle.std.specs.Io.KnownBytes.{Consumes, IsAtEnd};
ghost use Rattle.plinq_cli.specs.declared.input_fault.InputFault.TheVariants.{Read, TooLong};

use crate::input_fault::InputFault;
use std::alloc::{AllocError, Global};
use std::io::Read;

/// The most bytes of an input.
const MOST_BYTES: usize = 16_777_216;

/// The most reads: each but the last gives a byte or more, and one byte too many ends it.
const MOST_READS: usize = MOST_BYTES + 1;

/// The most bytes of one read.
const PIECE_BYTES: usize = 65_536;

/// Reads all that a reader gives, at most 16,777,216 bytes.
///
/// # Errors
///
/// [`InputFault::Read`] at the first read that fails, whatever the cause, also one that was only interrupted.
/// [`InputFault::TooLong`] if there are more bytes, of which no more than one read's are taken.
/// [`InputFault::Memory`] if there is no memory for them.
pub fn read_input<R: Read>(alloc: Global, reader: &mut R) -> Result<Vec<u8>, InputFault>
    // Of a reader that reports its bytes these are all of them, and no byte is left.
    ensures bytes { IfOk result (λ v. IfSome (R.remaining reader.old) (λ told. v.items ≡ told)) }
    ensures end { OnOk result (IsAtEnd (R.remaining reader.new)) }
    ensures few { IfOk result (λ v. vec_len v ≤ 2 ^ 24) }
    ensures many { IsErrOf result TooLong → IfSome (R.remaining reader.old) (λ told. 2 ^ 24 < length told) }
    ensures taken { IsErrOf result TooLong → IfSome (R.remaining reader.old) (λ told. IfSome (R.remaining reader.new)
        (λ left. length told ≤ (2 ^ 24 + 65536) + length left)) }
{
    let mut piece = zeros(alloc, PIECE_BYTES)?;
    read_pieces(alloc, reader, piece.as_mut_slice())
}

fn zeros(alloc: Global, count: usize) -> Result<Vec<u8>, AllocError>
    ensures { IfOk result (λ v. vec_len v ≡ count) }
{
    vec![in alloc; 0; count]
}

/// Reads by way of the piece, as much at once as it holds.
fn read_pieces<R: Read>(
    alloc: Global,
    reader: &mut R,
    piece: &mut [u8],
) -> Result<Vec<u8>, InputFault>
    requires { 0 < length piece.old }
    ensures bytes { IfOk result (λ v. IfSome (R.remaining reader.old) (λ told. v.items ≡ told)) }
    ensures end { OnOk result (IsAtEnd (R.remaining reader.new)) }
    ensures few { IfOk result (λ v. vec_len v ≤ 2 ^ 24) }
    ensures many { IsErrOf result TooLong → IfSome (R.remaining reader.old) (λ told. 2 ^ 24 < length told) }
    ensures taken { IsErrOf result TooLong → IfSome (R.remaining reader.old) (λ told. IfSome (R.remaining reader.new)
        (λ left. length told ≤ (2 ^ 24 + length piece.old) + length left)) }
{
    let mut bytes = Vec::new(alloc);
    for _ in 0..MOST_READS {
        let count = read_piece(reader, piece)?;
        if count == 0 {
            return Ok(bytes);
        }
        if count > MOST_BYTES - bytes.len() {
            return Err(InputFault::TooLong);
        }
        bytes.extend_from_slice(&piece[..count])?;
    }
    unreachable!()
}

/// One read.
fn read_piece<R: Read>(reader: &mut R, piece: &mut [u8]) -> Result<usize, InputFault>
    ensures consumed { IfOk result (λ n. Consumes (R.remaining reader.old) (R.remaining reader.new) (take n piece.new)) }
    ensures ended { IsOkAnd result (λ n. (n ≡ 0) × (0 < length piece.new)) → IsAtEnd (R.remaining reader.new) }
    ensures within { IfOk result (λ n. n ≤ length piece.new) }
    ensures fault { IfErr result (λ e. e ≡ Read) }
{
    match reader.read(piece) {
        Ok(count) => Ok(count),
        Err(_) => Err(InputFault::Read),
    }
}
