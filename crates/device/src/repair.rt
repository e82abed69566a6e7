// A page read, tested, and replaced where the test refuses it.
ghost use Rattle.device.specs.Repair.{Repaired};

use crate::{PageDevice, PowerOff, gives_sealed};

#[derive(Clone, Copy, PartialEq, Eq, Debug)]
pub enum Repair {
    Intact,
    Replaced,
}

pub fn repair_page<D: PageDevice>(
    device: &mut D,
    page: u32,
    spare: &[u8; 512],
) -> Result<Repair, PowerOff>
    ensures { Repaired (D.disk device.old) page spare.now result (D.disk device.new) }
{
    if !device.powered() {
        return Err(PowerOff);
    }
    if gives_sealed(&device.read(page)) {
        return Ok(Repair::Intact);
    }
    device.write(page, spare)?;
    Ok(Repair::Replaced)
}
