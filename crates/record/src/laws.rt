// Theorems about the definitions, each on the contract of a function.
ghost use Rattle.record.specs.Laws.{DecodedFits, ImageHas128Bytes, ImageIsSealed, ImageReadsBack, OneImage};

// An image gives back the position and the content that it was made of, and only the image of a content decodes to it.
pub fn content_has_one_image_that_reads_back()
    ensures image_reads_back { ImageReadsBack }
    ensures one_image { OneImage }
{}

pub fn decoded_content_fits()
    ensures { DecodedFits }
{}

pub fn image_is_a_sealed_block()
    ensures length { ImageHas128Bytes }
    ensures sealed { ImageIsSealed }
{}
