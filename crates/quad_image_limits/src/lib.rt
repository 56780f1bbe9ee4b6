//! Law `images_are_valid`: the image of a well-formed quad program is valid.
#![tactic(auto)]

ghost use Rattle.quad_image_limits.specs.Limits.{ImagesAreValid};

/// The image of a well-formed quad program passes each test of images. It does nothing when it
/// runs.
pub fn images_are_valid()
    ensures { ImagesAreValid }
{}
