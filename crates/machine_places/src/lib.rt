//! Law `valid_images_keep_apart`: the serial code of a valid image draws no number, its blocks neither spawn nor
//! end the run, and each thread asks for words of the table that threads share.
#![tactic(auto)]

ghost use Rattle.xmt_isa.specs.declared.image.Image.{Image};
ghost use Rattle.xmt_isa.specs.Valid.{IsValid};
ghost use Rattle.machine_places.specs.Keeps.{KeepsApart, KeepsToShared};

/// The serial code of a valid image draws no numbers, its blocks neither spawn nor end the run,
/// and each thread asks for words of the table that threads share.
pub fn valid_images_keep_apart()
    ensures apart { (image : Image) → IsValid image → KeepsApart image }
    ensures shared { (image : Image) → IsValid image → KeepsToShared image }
{}
