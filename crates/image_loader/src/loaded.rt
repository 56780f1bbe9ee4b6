//! Valid images.
use std::marker::Model;
use xmt_isa::Image;

/// An image that is valid.
#[derive(Debug, Drop)]
pub struct Loaded {
    image: Image,
}

impl Model for Loaded {
    ghost use Rattle.xmt_isa.specs.declared.image.Image.{Image};
    ghost use Rattle.xmt_isa.specs.Valid.{IsValid};

    ghost Value = { Image };

    ghost view = { λ loaded. loaded.image };

    ghost invariant = { λ loaded. IsValid loaded.image };
}

impl Loaded {
    ghost use Rattle.std.specs.Prelude.{◌≡◌};
    ghost use Rattle.xmt_isa.specs.Valid.{IsValid};

    pub(crate) fn new(image: Image) -> Loaded
        requires { IsValid image }
        ensures { result ≡ image }
    {
        Loaded { image }
    }

    /// The image, which passes each test.
    pub fn image(&self) -> &Image
        ensures same { result.now ≡ self.now }
        ensures valid { IsValid self.now }
    {
        &self.image
    }
}
