// Pages made of images, and lent again.
ghost use Rattle.std.specs.Prelude.{◌≡◌, true};
ghost use Rattle.page.specs.Form.{decode_page, is_laid};
ghost use Rattle.page_view.specs.Decoded.{content_of, ImageKept};

use crate::owned::Page;
use crate::view::PageView;
use order::KeyOrder;
use page::check;

impl Page {
    // The page that these bytes are under an order of keys, if they are one.
    pub fn new<O: KeyOrder>(order: &O, image: [u8; 512]) -> Option<Page>
        ensures content { content_of result ≡ decode_page O.KeyOrder.says image }
        ensures kept { ImageKept result image }
    {
        // no `then_some`: it would be made before the test
        if check(order, &image) {
            Some(Page { image })
        } else {
            None
        }
    }

    // The same where they are known to be one.
    pub fn of(image: [u8; 512]) -> Page
        requires { is_laid image ≡ true }
        ensures { result.image ≡ image }
    {
        Page { image }
    }

    pub fn image(&self) -> &[u8; 512]
        ensures { result.now ≡ self.now.image }
    {
        &self.image
    }

    pub fn view(&self) -> PageView<'_>
        ensures { result.image.now ≡ self.now.image }
    {
        PageView::new(&self.image)
    }
}
