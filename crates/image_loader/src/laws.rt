//! Laws of valid images and of their bytes.
ghost use Rattle.std.specs.Prelude.{◌≡◌, ℕ, List};
ghost use Rattle.xmt_isa.specs.declared.image.Image.{Image};
ghost use Rattle.xmt_isa.specs.Valid.{IsValid};
ghost use Rattle.image_loader.specs.Layout.{Bytes};
ghost use Rattle.image_loader.specs.Nesting.{IsNested};

/// Bytes spell at most one image.
pub fn is_one_image()
    ensures { (image other : Image) (bytes : List ℕ) → Bytes image bytes → Bytes other bytes → image ≡ other }
{}

/// An image has at most one spelling.
pub fn is_one_spelling()
    ensures { (image : Image) (bytes others : List ℕ) → Bytes image bytes → Bytes image others → bytes ≡ others }
{}

/// A valid image is entered and left at its calls, spawns and joins as its functions and blocks
/// nest. Together with `xmt_isa::valid_images_are_sound`, which speaks of the steps inside them,
/// no unit comes to an instruction outside its function and its block.
pub fn valid_images_nest()
    ensures { (image : Image) → IsValid image → IsNested image }
{}
