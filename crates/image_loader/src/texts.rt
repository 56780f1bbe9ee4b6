//! The test of texts.
ghost use Rattle.std.specs.Prelude.{◌≡◌, ◌↔◌, All, IsTrue};
ghost use Rattle.xmt_base.specs.Format.{IsFormat};
ghost use Rattle.xmt_isa.specs.Valid.{HasTexts};

use sqlite_items::Items;
use xmt_base::is_format;
use xmt_isa::Image;

fn are_formats(texts: &[Items<u8>]) -> bool
    ensures { IsTrue result ↔ All IsFormat texts.now }
{
    for item in texts {
        if !is_format(item.as_slice()) {
            return false;
        }
    }
    true
}

/// Each text can be printed.
pub fn has_texts(image: &Image) -> bool
    ensures { IsTrue result ↔ HasTexts image.now }
{
    are_formats(image.texts.as_slice())
}
