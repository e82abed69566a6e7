// The pages of a device as slots of a log.
ghost use Rattle.std.specs.Prelude.{◌≡◌, ◌<◌, true};
ghost use Rattle.wal.specs.Slots.{LastPassing};
ghost use Rattle.page_log.specs.Pages.{looked, paged, page_slots, with_last};

use device::PageDevice;
use field::put;
use seal::seal_array;
use wal::{RecordError, record_in, room};

// The page of a record.
pub fn page_of(record: &[u8; 128]) -> [u8; 512]
    ensures { result ≡ paged «record».now }
{
    let mut page = [0; 512];
    put(&mut page, 0, record);
    seal_array(&mut page);
    page
}

// Positions are numbers from 1 on, as a log's trait takes them.
pub fn record_at<D: PageDevice>(device: &mut D, position: u32) -> Result<[u8; 128], RecordError>
    requires { 0 < position }
    ensures value { result ≡ looked (D.disk device.old) position }
    ensures same { D.disk device.new ≡ D.disk device.old }
{
    let page = device.read(position - 1)?;
    record_in(&page, position)
}

// `SlotLog`'s scan, over a device: one function for both would take a trait of slots, its laws and two impls for these lines.
pub fn last_passing<D: PageDevice>(device: &mut D) -> u32
    requires { (D.disk device.old).on ≡ true }
    ensures value { LastPassing (page_slots (D.disk device.old)) result }
    ensures same { D.disk device.new ≡ D.disk device.old }
{
    for position in (1..=room(device.count())).rev() {
        if record_at(device, position).is_ok() {
            return position;
        }
    }
    0
}

// How far a row of `used` positions reaches when the append of `last` was cut off.
pub fn with_last<D: PageDevice>(device: &mut D, used: u32, last: &[u8; 128]) -> u32
    requires { (D.disk device.old).on ≡ true }
    ensures value { result ≡ with_last (page_slots (D.disk device.old)) used last.now }
    ensures same { D.disk device.new ≡ D.disk device.old }
{
    if used < room(device.count()) && record_at(device, used + 1) == Ok(*last) {
        return used + 1;
    }
    used
}
