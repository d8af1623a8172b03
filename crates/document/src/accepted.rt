// A document that number 9 does not refuse. It has the fields of a `Document` itself, so that they are read as there. A file of its own: its
// ghost field names what `check` promises.
ghost use Rattle.document.specs.Rows.{Accepted};

#[derive(Clone, Copy)]
pub struct AcceptedDocument<'a> {
    pub rows: &'a [u32],
    pub count: usize,
    pub text: &'a [u8],
    pub total: usize,
    ghost accepted: { Accepted rows.now count text.now total },
}
