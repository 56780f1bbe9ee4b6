//! What a print writes.
ghost use Rattle.std.specs.Prelude.{◌≡◌, ◌++◌, ◌<◌, ◌≤◌, false, drop, length, slice_index, IfOk, OnOk};
ghost use Rattle.std.specs.Fmt.{signed_decimal};
ghost use Rattle.xmt_base.specs.Format.{directives};
ghost use Rattle.xmt_base.specs.Operators.{signed};
ghost use Rattle.xmt_base.specs.Text as spec;
ghost use Rattle.xmt_isa.specs.Machine.{text_of};

use image_loader::Loaded;
use std::alloc::{AllocError, Global};

// Appends the number, read as signed.
fn push_number(alloc: Global, bytes: &mut Vec<u8>, value: u32) -> Result<(), AllocError>
    ensures { OnOk result (bytes.new.items ≡ bytes.old.items ++ signed_decimal (signed value)) }
{
    let number = value.cast_signed();
    let text = format!(in alloc; "{number}")?;
    bytes.extend_from_slice(text.as_bytes())?;
    Ok(())
}

// The first value, or 0 where there is none.
fn first_of(values: &[u32]) -> u32
    ensures { result ≡ slice_index values.now 0 }
{
    values.first().copied().unwrap_or(0)
}

// The values behind the first.
fn behind_first(values: &[u32]) -> &[u32]
    ensures { result.now ≡ drop 1 values.now }
{
    if values.is_empty() {
        values
    } else {
        &values[1..]
    }
}

// The bytes of a text, with the next value as a signed decimal for each `%d`, and a percent sign
// for each `%%`.
fn printed(alloc: Global, text: &[u8], values: &[u32]) -> Result<Vec<u8>, AllocError>
    ensures { IfOk result (λ bytes. bytes.items ≡ spec.piece text.now values.now) }
{
    let mut bytes = Vec::new(alloc);
    let mut behind_percent = false;
    let mut left = values;
    for c in text {
        if behind_percent && *c == b'd' {
            push_number(alloc, &mut bytes, first_of(left))?;
            left = behind_first(left);
            behind_percent = false;
        } else if !behind_percent && *c == b'%' {
            behind_percent = true;
        } else {
            bytes.push(*c)?;
            behind_percent = false;
        }
    }
    Ok(bytes)
}

/// The bytes of the text with this number: the next value as a signed decimal for each `%d`, and a
/// percent sign for each `%%`.
pub fn piece(alloc: Global, image: &Loaded, text: u32, args: &[u32]) -> Result<Vec<u8>, AllocError>
    requires text { text < length image.now.texts }
    requires values { directives false (text_of image.now text) ≤ length args.now }
    ensures { IfOk result (λ bytes. bytes.items ≡ spec.piece (text_of image.now text) args.now) }
{
    match image.image().texts.get(text as usize) {
        None => printed(alloc, &[], args),
        Some(bytes) => printed(alloc, bytes.as_slice(), args),
    }
}
