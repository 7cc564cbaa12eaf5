//! The input, read to its end.

ghost use Rattle.std.specs.Prelude.{◌≡◌, ◌+◌, ◌<◌, ◌≤◌, IfOk, length, true, vec_len};
ghost use Rattle.cx_program.specs.Input.{Draws, IsPiece, ShowsInput};

use cx_base::{Failed, Source};
use std::alloc::{AllocError, Global};

/// The bytes that an input may have.
pub(crate) const LIMIT: usize = 16_777_216;

/// The bytes that a read asks for, but where fewer are left of the limit.
const PIECE: usize = 65_536;

/// The result of reading to the end.
#[derive(Drop)]
pub(crate) enum Input {
    /// All bytes, within the limit.
    Whole(Vec<u8>),
    /// One byte more than the limit was read.
    TooLong,
    /// The source failed.
    Failed,
}

/// `len` bytes that are 0.
fn zeros(alloc: Global, len: usize) -> Result<Vec<u8>, AllocError>
    ensures { IfOk result (λ bytes. vec_len bytes ≡ len) }
{
    vec![in alloc; 0u8; len]
}

/// Reads one piece, at most as long as the buffer, and puts it after the bytes read so far. The outer `Err` means out of
/// memory: then the piece is lost.
fn read_piece<S: Source>(
    source: &mut S,
    bytes: &mut Vec<u8>,
    buffer: &mut [u8],
) -> Result<Result<usize, Failed>, AllocError>
    requires { 0 < length buffer.old }
    ensures once { S.reads source.new ≤ S.reads source.old + 1 }
    ensures piece { IsPiece (length buffer.old) result bytes.old bytes.new (S.left source.old) (S.left source.new) (S.faults source.old) (S.faults source.new) }
{
    let n = match source.read(buffer) {
        Ok(n) => n,
        Err(Failed) => return Ok(Err(Failed)),
    };
    let (piece, _) = buffer.split_at(n);
    bytes.extend_from_slice(piece)?;
    Ok(Ok(n))
}

/// Reads a source to its end, or to one byte after the limit. Each read but the last brings a byte. `Err` means out of memory.
pub(crate) fn read_input<S: Source>(alloc: Global, source: &mut S) -> Result<Input, AllocError>
    ensures input { IfOk result (ShowsInput true (S.left source.old) (S.faults source.old) (S.faults source.new)) }
    ensures drawn { Draws S.Source 16777217 source.old source.new }
    ensures count { S.faults source.old ≤ S.faults source.new }
{
    let mut bytes = Vec::new(alloc);
    let mut buffer = zeros(alloc, PIECE)?;
    while bytes.len() <= LIMIT {
        let most = PIECE.min(LIMIT + 1 - bytes.len());
        match read_piece(source, &mut bytes, &mut buffer[..most])? {
            Ok(0) => return Ok(Input::Whole(bytes)),
            Ok(_) => {}
            Err(Failed) => return Ok(Input::Failed),
        }
    }
    Ok(Input::TooLong)
}
