// Why a call of a device fails.

// Power is off, or failed in the call.
#[derive(Clone, Copy, PartialEq, Eq, Debug)]
pub struct PowerOff;

#[derive(Clone, Copy, PartialEq, Eq, Debug)]
pub enum ReadError {
    Unreadable,
    Off,
}
