ghost use Rattle.std.specs.Prelude.{◌≡◌, true};
ghost use Rattle.page.specs.Form.{is_laid};

// A page held as its image, where a view only lends one.
#[derive(Clone, Copy)]
pub struct Page {
    pub(crate) image: [u8; 512],
    ghost laid: { is_laid image ≡ true },
}
