// A page image made of a header and a row of entries.
ghost use Rattle.std.specs.Prelude.{◌≡◌, ◌≤◌, replicate, if◌then◌else◌, Some, None, nat_le};
ghost use Rattle.page.specs.Content.{costs};
ghost use Rattle.page.specs.Image.{encode_page};
ghost use Rattle.page_build.specs.Told.{content_of};
ghost use Rattle.page_build.specs.Written.{heap_start, written};

use crate::head::head;
use crate::header::Header;
use crate::row::EntryRow;
use field::{put, put_before};
use page::layout::{HEAP_END, SLOTS};
use seal::seal_array;

// What the slots and the heap of a page have between them.
const ROOM: usize = 436;

// Writes slots and heap into a blank image, and tells where the heap begins.
fn fill<R: EntryRow>(out: &mut [u8; 512], row: &R) -> usize
    requires blank { out.old ≡ replicate 512 0 }
    requires room { costs (R.EntryRow.entries row.now) ≤ 436 }
    ensures start { result ≡ heap_start (R.EntryRow.entries row.now) }
    ensures after { out.new ≡ written (R.EntryRow.entries row.now) }
{
    let mut at = HEAP_END;
    // by slot, which is how a row gives its entries, whatever it is made of
    for i in 0..row.count() {
        at = put_before(out, at, row.entry(i));
        put(out, SLOTS + 2 * i, &(at as u16).to_le_bytes());
    }
    at
}

// The image of a page. Entries come as their bytes, so that whoever knows them has no need to copy them.
pub fn build<R: EntryRow>(h: &Header, row: &R) -> [u8; 512]
    requires { costs (R.EntryRow.entries row.now) ≤ 436 }
    ensures { result ≡ encode_page (content_of h.now (R.EntryRow.entries row.now)) }
{
    let mut out = [0; 512];
    let start = fill(&mut out, row);
    let top = head(h, row.count() as u16, start as u16);
    put(&mut out, 0, &top);
    seal_array(&mut out);
    out
}

// Whether the entries of a row fit a page. Not a plain sum, which entries of any length could make overflow.
fn fits<R: EntryRow>(row: &R) -> bool
    ensures { result ≡ nat_le (costs (R.EntryRow.entries row.now)) 436 }
{
    let mut spent = 0;
    for i in 0..row.count() {
        spent += 2 + row.entry(i).len();
        if spent > ROOM {
            return false;
        }
    }
    true
}

// The image of a page, if its entries fit.
pub fn fitted<R: EntryRow>(h: &Header, row: &R) -> Option<[u8; 512]>
    ensures { result ≡ (if nat_le (costs (R.EntryRow.entries row.now)) 436 then Some (encode_page (content_of h.now (R.EntryRow.entries row.now))) else None) }
{
    // no `then`: what `build` asks of the row, its closure would have to ask
    if fits(row) { Some(build(h, row)) } else { None }
}
