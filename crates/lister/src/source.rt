// A pool as it is given to a call.

#[derive(Clone, Copy)]
pub struct Source<'a> {
    pub bytes: &'a [u8],
    pub words: &'a [u32],
}
