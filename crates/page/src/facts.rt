// Theorems about the definitions, each on the contract of a function.
ghost use Rattle.page.specs.Laws.{DecodedIsImage, ImageGivesContent, ImageHas512Bytes, KeysAscend, KeysHeld, WalkIsExact};

// Every content that fits and has the form of a page is read back from its image.
pub fn decoding_an_image_gives_its_content()
    ensures size { ImageHas512Bytes }
    ensures content { ImageGivesContent }
{}

// A content has no other image.
pub fn what_decodes_is_an_image()
    ensures { DecodedIsImage }
{}

pub fn one_way_through_the_bytes_decides()
    ensures { WalkIsExact }
{}

// Under a lawful order, whatever it is.
pub fn keys_ascend_between_the_fences()
    ensures ascend { KeysAscend }
    ensures held { KeysHeld }
{}
