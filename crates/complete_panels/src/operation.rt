// What a host sends to a new panel for one operation.
use complete::Part;

#[derive(Clone, Copy)]
pub struct RegisterWrite {
    pub register: u8,
    pub value: u8,
}

// The bytes of the palette, the writes of the settings, whether patterns are 16 × 16, and the bursts and runs.
#[derive(Drop)]
pub struct PanelOperation<'a, 'b> {
    pub palette: &'a [u8],
    pub writes: &'a [RegisterWrite],
    pub large: bool,
    pub parts: &'a [Part<'b>],
}
