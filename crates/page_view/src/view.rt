ghost use Rattle.std.specs.Prelude.{◌≡◌, ◌<◌, true, length};
ghost use Rattle.page.specs.Form.{is_laid};
ghost use Rattle.page.specs.Image.{parse_page};
ghost use Rattle.seal.specs.Laws.{Bytes};

// A page lent as its image, in whatever order of keys.
#[derive(Clone, Copy)]
pub struct PageView<'a> {
    pub(crate) image: &'a [u8; 512],
    ghost laid: { is_laid image.now ≡ true },
    // as its type says, for the proofs of what reads in it
    ghost size: { length image.now ≡ 512 },
    ghost bytes: { Bytes image.now },
}

// An entry of a page, by its slot.
#[derive(Clone, Copy)]
pub struct EntryView<'a> {
    pub(crate) page: PageView<'a>,
    pub(crate) slot: usize,
    ghost within: { slot < length (parse_page page.image.now).entries },
}

// A page's foster child, and the key from which on it stands for the page.
#[derive(Clone, Copy)]
pub struct FosterView<'a> {
    pub key: &'a [u8],
    pub child: u32,
}
