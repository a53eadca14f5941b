// What is under way: the four states of a panel, each named, and so no Option of what is under way. A rule of the panel is that each
// call matches the state that it meets.
use job::Begun;
use palette_load::PaletteLoad;

#[derive(Drop)]
pub enum Activity {
    Idle,
    // memory serves the operation, and runs draw it
    Drawing(Begun),
    // the host serves the operation, and its bytes are awaited
    Awaiting(Begun),
    // the palette is loaded, and its bytes are awaited
    PaletteLoad(PaletteLoad),
}
