// What a host gives an operation at a time. Data and no closures, since the laws speak of the bytes that the parts feed.
#[derive(Clone, Copy)]
pub enum Part<'a> {
    Feed(&'a [u8]),
    Run(u32),
}
