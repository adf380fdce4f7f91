//! The eight bytes before an image, which say what it is of: "MZQS", a version, the family, the
//! kind of the items, 0.
ghost use Rattle.std.specs.Prelude.{◌≡◌, ◌++◌, ◌⊎◌, ℕ, Bool, List, IfOk, IfErr};
ghost use Rattle.sketch_base.specs.declared.error.ErrorKind.TheVariants.{InvalidData, OutOfMemory};
ghost use Rattle.sketches_c.specs.Calls.{IsWritten};
ghost use Rattle.sketches_c.specs.Frames.{Holds, IsMarked, frame};

use crate::answers::{OK, WRONG_SIZE};
use sketch_base::error::{Error, ErrorKind};
use std::alloc::Global;

/// Returns the image in its frame.
pub(crate) fn framed(alloc: Global, req: bool, floats: bool, image: &[u8]) -> Result<Vec<u8>, Error>
    ensures framed { IfOk result (λ v. v.items ≡ frame req floats ++ image.now) }
    ensures memory { IfErr result (λ e. e ≡ OutOfMemory) }
{
    let head = [
        b'M',
        b'Z',
        b'Q',
        b'S',
        1,
        if req { 2 } else { 1 },
        if floats { 1 } else { 0 },
        0,
    ];
    let mut text = Vec::with_capacity(alloc, image.len().saturating_add(head.len()))?;
    text.extend_from_slice(&head)?;
    text.extend_from_slice(image)?;
    Ok(text)
}

/// Returns the image that bytes hold, in its frame or plain, and whether its items are floats.
pub(crate) fn unframed(bytes: &[u8], req: bool) -> Result<(&[u8], bool), Error>
    ensures held { IfOk result (λ found. Holds req bytes.now found.0.now found.1) }
    ensures kind { IfErr result (λ e. e ≡ InvalidData) }
    ensures alone { IfOk result (λ found. (image : List ℕ) (floats : Bool)
        → Holds req bytes.now image floats → (image ≡ found.0.now) ⊎ IsMarked image) }
    ensures unread { IfErr result (λ e. (image : List ℕ) (floats : Bool)
        → Holds req bytes.now image floats → IsMarked image) }
{
    match bytes {
        [b'M', b'Z', b'Q', b'S', version, id, kind, last, image @ ..] => {
            if *version == 1 && *id == if req { 2 } else { 1 } && *kind <= 1 && *last == 0 {
                return Ok((image, *kind == 1));
            }
            Err(Error::new(ErrorKind::InvalidData))
        }
        _ => Ok((bytes, false)),
    }
}

/// Writes bytes to the front of a buffer, if there is room.
pub(crate) fn write_front(text: &[u8], buffer: &mut [u8], size: &mut u64) -> i32
    ensures { IsWritten (Unit {0}) text.now buffer.old result buffer.new size.new }
{
    *size = text.len() as u64;
    if buffer.len() < text.len() {
        return WRONG_SIZE;
    }
    let (front, _) = buffer.split_at_mut(text.len());
    front.copy_from_slice(text);
    OK
}
