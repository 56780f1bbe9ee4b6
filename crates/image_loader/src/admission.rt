//! Admitting images: the tests in their order.
ghost use Rattle.std.specs.Prelude.{◌≡◌, IfOk, IfErr};
ghost use Rattle.xmt_isa.specs.declared.image.Image.{Image};
ghost use Rattle.xmt_isa.specs.Valid.{IsValid};
ghost use Rattle.image_loader.specs.Layout.{Bytes};
ghost use Rattle.image_loader.specs.Order.{Tested, RefusesImage, RefusesBytes};
ghost use Rattle.image_loader.specs.Reading.{Gives};

use crate::loaded::Loaded;
use crate::reading::decode;
use crate::refusal::{LoadKind, LoadRefusal};
use crate::regions::has_regions;
use crate::registers::has_registers;
use crate::sizes::{has_operations, has_sizes};
use crate::symbols::has_symbols;
use crate::targets::has_targets;
use crate::texts::has_texts;
use std::alloc::{AllocError, Global};
use xmt_isa::Image;

// The first test that fails.
fn first_fault(alloc: Global, image: &Image) -> Result<Option<LoadKind>, AllocError>
    ensures { IfOk result (Tested image.now) }
{
    if !has_sizes(image) {
        return Ok(Some(LoadKind::BadSize));
    }
    if !has_operations(image) {
        return Ok(Some(LoadKind::BadOpcode));
    }
    if !has_registers(image) {
        return Ok(Some(LoadKind::BadRegister));
    }
    if !has_targets(image) {
        return Ok(Some(LoadKind::BadTarget));
    }
    if !has_regions(alloc, image)? {
        return Ok(Some(LoadKind::BadRegion));
    }
    if !has_texts(image) {
        return Ok(Some(LoadKind::BadText));
    }
    if !has_symbols(alloc, image)? {
        return Ok(Some(LoadKind::BadSymbol));
    }
    Ok(None)
}

/// The image where it is valid. A refused image is dropped, and the kind is that of the first test
/// that fails.
pub fn admit(alloc: Global, image: Image) -> Result<Loaded, LoadRefusal>
    ensures same { IfOk result (λ loaded. loaded ≡ image) }
    ensures valid { IfOk result (λ _. IsValid image) }
    ensures refused { IfErr result (RefusesImage image) }
{
    match first_fault(alloc, &image) {
        Err(_) => Err(LoadRefusal::NoMemory),
        Ok(Some(kind)) => Err(LoadRefusal::Refused(kind)),
        Ok(None) => Ok(Loaded::new(image)),
    }
}

/// The valid image that the bytes spell, all of the bytes. The first fault from the left is given,
/// and where there is none the first test that the image fails.
pub fn load(alloc: Global, bytes: &[u8]) -> Result<Loaded, LoadRefusal>
    ensures found { IfOk result (λ image. Bytes image bytes.now × IsValid image) }
    ensures only { (image : Image) → Bytes image bytes.now → IsValid image → Gives (λ i. i) result (Ok image) }
    ensures refused { IfErr result (RefusesBytes bytes.now) }
{
    match decode(alloc, bytes) {
        Err(refusal) => Err(refusal),
        Ok(image) => admit(alloc, image),
    }
}
